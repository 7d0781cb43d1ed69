// Words, blank columns and equal columns in the fields of a record.

#![tactic(auto)]

pub mod word;
