// The results of a reply in lent memory, and check 42.
#![tactic(auto)]

pub mod check;
pub mod result;
