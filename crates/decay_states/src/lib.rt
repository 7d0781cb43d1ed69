// Characters, states and numbers of a code's reading.

#![tactic(auto)]

pub mod numbers;
pub mod states;
