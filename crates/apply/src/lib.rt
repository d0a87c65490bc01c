// Rule 7: one reading applied to its tag.
#![tactic(auto)]

pub mod reading;
