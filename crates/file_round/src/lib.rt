// The shelf file's round trips: theorems on saving and loading, over the definitions that their promises cite. There is no code
// here.
#![tactic(auto)]
