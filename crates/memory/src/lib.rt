// Lent memory as numbers. Nothing above this crate but `tags` and `removal` speaks of bytes. Every public function but
// those of `bytes` and `cells::places` is total: an index past the end reads 0, and a store there writes nothing.
#![tactic(auto)]

pub mod bytes; // numbers in bytes, for loops that keep within the slice
pub mod cells; // numbers of eight bytes
pub mod rows; // rows of 32 cells
pub mod halves; // numbers of two bytes
