// Making an index: what is refused, and a row stored.

#![tactic(auto)]

pub mod refusal;
pub mod store;
