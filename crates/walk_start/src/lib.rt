// Values in order: making a walk.

#![tactic(auto)]

pub mod start;
