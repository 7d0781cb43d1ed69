// The exact powers of ten.

#![tactic(auto)]

pub mod tens;
