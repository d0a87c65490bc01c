// The names of a directory: joined in one buffer, with an array of end places beside it. A tag is the rank of its name, from 0.
#![tactic(auto)]

pub mod bits;
pub mod directory;
pub mod keys;
pub mod order;
