// What follows from the clock's definitions: the refusals in document 01's words, what the records that are handed back say, that
// an answer's number loses nothing, the order of a move, that equal records are answered alike, and what a clock promises over
// a history. There is no code here.
#![tactic(auto)]
