// Bytes stored from a place of a buffer on, as far as it goes: as they are, or a number by its canonical characters.

#![tactic(auto)]

pub mod kept;
pub mod numbers;
