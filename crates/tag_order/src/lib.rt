#![tactic(auto)]

// Rule 7 in tag order, in specs/ and proofs/, for the claim that readings applied in list order come to
// the same. It has no code.
