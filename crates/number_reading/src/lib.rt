// Number fields: reading a field of eleven columns as an exact decimal.

#![tactic(auto)]

pub mod read;
