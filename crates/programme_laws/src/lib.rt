// What is so of programme lists: a section that is read as one is that list's bytes, and its items and loops tile it. No code.
#![tactic(auto)]
