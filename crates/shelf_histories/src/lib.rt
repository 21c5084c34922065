// Histories of calls on a shelf that a host lends. No code: specs/History.antt has the histories, specs/Laws.antt what is so of
// each, and proofs/ that it is so.
#![tactic(auto)]
