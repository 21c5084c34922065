// What is so of the text for staff: it disturbs no terminal, and calls a list whole exactly when every section is read. No code.
#![tactic(auto)]
