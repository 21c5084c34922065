// Laws of the shelf that a reader can hold against document 01, and what holds over any history of calls. No code: the
// definitions of histories are in specs/, the theorems in proofs/.
#![tactic(auto)]
