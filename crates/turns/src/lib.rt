#![tactic(auto)]

// Demand 3: the claim about lists of calls and its proof, in specs/ and proofs/. It has no code.
