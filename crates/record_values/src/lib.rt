// The values of a record.

#![tactic(auto)]

pub mod numbers;
