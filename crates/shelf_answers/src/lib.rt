// Laws of the numbers that the calls on a lent shelf answer. No code: specs/Laws.antt has the laws, and proofs/ that they hold.
#![tactic(auto)]
