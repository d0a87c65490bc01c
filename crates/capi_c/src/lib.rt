// The entry points as the symbols of the archive: each calls the function of `capi` that has its name, and says the same of
// itself. A crate is built as a library or as an archive, so that these stand apart.
#![tactic(auto)]

pub mod calls; // tier calls, loads, writes, stops, steps
pub mod creation; // creation
pub mod looks; // looks, which change nothing
pub mod sizes; // sizes of what the host lends
