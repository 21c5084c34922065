// The functions of `khumsafil` as C links them: an export for each, under the same name and clauses, a file for each layer. A crate
// is a library or a static library, and theorems stand over the library; so the exports are a crate of their own.
#![tactic(auto)]

pub mod clocks;
pub mod files;
pub mod loops;
pub mod programmes;
pub mod sections;
pub mod shelves;
pub mod triggers;
pub mod versions;
pub mod writers;
