#![tactic(auto)]

// Memory in parts, one after the other: definitions and laws alone.
