// The sections of a body, offered to a fresh shelf in any order (document 02, request 1). No code: the terms are in
// specs/, the theorems in proofs/.
#![tactic(auto)]
