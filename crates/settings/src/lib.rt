// What the host sets: the settings of the tags and the configured groups, lent as records of cells. Check 14.
#![tactic(auto)]

pub mod configured;
mod each;
pub mod range;
pub mod setting;
