#![tactic(auto)]

// No list is ever cut for want of room, of an engine or of a look: specs/ and proofs/. It has no code.
