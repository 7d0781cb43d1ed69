// The decimal that a field says, from what was read of it.

#![tactic(auto)]

pub mod decimal;
pub mod signed;
