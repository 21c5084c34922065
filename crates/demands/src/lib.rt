// The buyer's third condition and what stands beside it, of the functions that a host calls. No code: specs/ has the statements,
// proofs/ that each is so.
#![tactic(auto)]
