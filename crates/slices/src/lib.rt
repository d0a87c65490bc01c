// Rule 6: the tier-2 tags in order, and the slice that a boundary round takes of them.
#![tactic(auto)]

mod slots; // tags sorted by a slot for each key
pub mod tier2; // tier-2 tags by key, ties in table order
pub mod slice; // the slice and its index
