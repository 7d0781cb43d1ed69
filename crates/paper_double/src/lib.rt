// What a double of a value is, and the laws about it. Definitions and proofs, and no code but the types.

#![tactic(auto)]

pub mod types;
