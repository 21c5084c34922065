// Theorems on the shelf file: what is accepted, and that it is accepted in one way.
#![tactic(auto)]
