// Rule 9: an engine while it is connected. A function here is a part of the Rust's `poll`, `idle` or `run_writes` between
// two waits for the host.
#![tactic(auto)]

pub mod polling; // rounds, the writes behind them, the waits between them
