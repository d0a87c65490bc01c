// Rule 11: the panel list, checked, loaded and written.
#![tactic(auto)]

mod form; // where tags and tiers stand in a list
pub mod check;
pub mod load;
pub mod write;
