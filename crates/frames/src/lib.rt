// Frames of recorded answers: the calls that they name, their numbers and lists, how an answer is compared with its frame,
// and what is written about it. How the calls are made, `replay` knows.
#![tactic(auto)]

pub mod answer; // what a call answered, compared with what was recorded
pub mod calls; // the calls that a frame may name
pub mod compare; // two lists, and lists of one byte
pub mod counts; // how far a replay has come
pub mod numbers; // numbers of four and eight bytes
pub mod parts; // lists within a frame
pub mod report; // what is written
