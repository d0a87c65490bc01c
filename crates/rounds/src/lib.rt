// Rule 6: which tags are read in a round.
#![tactic(auto)]

pub mod added;
mod collect;
pub mod due;
pub mod graces;
pub mod missing;
pub mod round;
pub mod steps;
pub mod tick;
