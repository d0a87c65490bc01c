// Rule 9: what a step waits for: an answer of the host, and the checks that it has to pass.
#![tactic(auto)]

pub mod answer; // an answer of the host
pub mod awaiting; // checks 14, 21, 22, 41, 42 and 43 of a step
