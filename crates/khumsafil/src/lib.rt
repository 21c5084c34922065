// The host's boundary, a file for each layer: numbers and slices alone, which the header's inline functions and the Rust wrapper make
// things of. Each function passes its arguments on to the
// crate that puts the layer's answers into numbers; none asks anything of its caller, since nothing would hold a host to it.
#![tactic(auto)]

pub mod clocks;
pub mod files;
pub mod loops;
pub mod programmes;
pub mod sections;
pub mod shelves;
pub mod triggers;
pub mod versions;
pub mod writers;
