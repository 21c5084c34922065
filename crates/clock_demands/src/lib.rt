// What is demanded of the clock, stated about the exported functions' own promises. There is no code here.
#![tactic(auto)]
