// The checks of calls, in document 01's order; the first that refuses is answered.
#![tactic(auto)]

pub mod calls; // tier calls, loads and writes
pub mod creation; // creation
