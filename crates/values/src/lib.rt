// Rules 2 and 3: values, errors, qualities, cache entries, what a reading makes of an entry, and the deadband.
#![tactic(auto)]

pub mod deadband;
pub mod entry;
pub mod error;
pub mod value;
