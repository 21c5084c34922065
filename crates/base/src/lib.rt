// The ground that every layer stands on: definitions of bytes, numbers, choices and tables of refusals in specs/, and
// their laws in proofs/. It has no code: a number in a wider type is `from` of the library.
#![tactic(auto)]
