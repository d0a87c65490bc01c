// Rule 7: the readings of the tags asked for applied to the board, and the changes told.
#![tactic(auto)]

pub mod changes;
pub mod kept;
pub mod listed;
