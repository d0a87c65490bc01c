// Rule 8: what a version answer changes.
#![tactic(auto)]

pub mod check;
pub mod tag;
