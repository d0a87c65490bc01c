// What the head of an engine is made of: its options, the connection and its version, how far the engine and its rounds
// have come, and the statistics of these.
#![tactic(auto)]

pub mod cycle;
pub mod link;
pub mod options;
pub mod progress;
pub mod stats;
pub mod version;
