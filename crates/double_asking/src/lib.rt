// The value question as a double, in full.

#![tactic(auto)]

pub mod asking;
