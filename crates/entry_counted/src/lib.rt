// What is counted after a record without fault.

#![tactic(auto)]

pub mod counted;
