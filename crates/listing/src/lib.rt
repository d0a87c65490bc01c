// The round lister's lines: those that it reads, and those that it writes.
#![tactic(auto)]

pub mod line;
pub mod write;
