// Rule 9: what each answer of the host comes to. A function here is a part of the Rust's `run` or `connected` between two
// waits for the host; `cycles` and `replies` have what they go on with.
#![tactic(auto)]

pub mod answers; // what each answer comes to
