// Rule 9: what a step gives back, one request or one event, and what it gives where the connection is lost or the engine
// ends. A function of `losing` is a part of the Rust's `run` between two waits for the host.
#![tactic(auto)]

pub mod at; // when a step is taken
pub mod losing; // the end, and a connection that is lost
pub mod reply; // what a call gives back, in numbers
pub mod response; // what a step gives back
