// Rule 5: the table of tags in tiers, with its order of entry and its graces, and what a tier call does to it.
#![tactic(auto)]

pub mod grace;
pub mod set;
