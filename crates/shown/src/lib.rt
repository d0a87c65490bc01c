// What looks answer, by the head and the board. The entry points in `capi` lend them their parts of the memory.
#![tactic(auto)]

mod found; // what they find on the board
pub mod counts; // how many tags are in each tier
pub mod head; // the state, the statistics of the rounds
pub mod list_looks; // group statistics, the table, the panel list
pub mod tag; // a tag
