// Document 01's arithmetic on binary64 (rules 3, 4, 6 and 7, and check 21). Each function is
// defined for every f64, infinities and NaN among them, and its contract gives the result outright,
// by a definition of specs/.
#![tactic(auto)]

pub mod band;
mod casts;
pub mod number;
pub mod round;
pub mod times;
