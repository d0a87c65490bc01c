// Values, errors and entries as 64-bit words, for memory and for C. A decoder is its definition; an encoder's words
// decode to its argument, and are those of its definition.
#![tactic(auto)]

pub mod entry;
pub mod error;
pub mod scalar;
pub mod time;
pub mod value;
