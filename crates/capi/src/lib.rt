// The entry points: functions on numbers and byte slices, which `capi_c` exports for a host in C or Rust. The engine lives
// in memory that the host lends. Each answers for all numbers, bytes and lengths: with the work done, or with the number of
// the check that refuses it, and then nothing is written.
#![tactic(auto)]

pub mod calls; // tier calls, loads, writes, stops, steps
pub mod creation; // creation
pub mod looks; // looks, which change nothing
pub mod sizes; // sizes of what the host lends
mod whole; // the head and the board in one memory
