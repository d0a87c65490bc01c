// Rules 1 to 6 as C functions, so that a Rust program can hold each to the original.
#![tactic(auto)]

pub mod directories;
pub mod entry_leaves;
pub mod numbers;
pub mod polls;
