// The parts of a code's characters: its fields, their words and numbers.

#![tactic(auto)]

pub mod parts;
pub mod places;
