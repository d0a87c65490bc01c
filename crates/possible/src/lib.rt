// Every setup that creation accepts has an engine, and every list of calls a history from it on: specs/ and proofs/. It has
// no code.
#![tactic(auto)]
