#![tactic(auto)]

// Definitions and laws on lists of calls, in specs/ and proofs/, for the crates whose claims speak of
// what a list of calls comes to. It has no code.
