// Rule 8: what is read after a write, writes that fail, and what is asked for.
#![tactic(auto)]

pub mod failing;
pub mod readback;
pub mod request;
