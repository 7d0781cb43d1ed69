// Which decimals are doubles, and which.

#![tactic(auto)]

pub mod simple;
