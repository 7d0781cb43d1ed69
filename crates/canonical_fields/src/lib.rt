// A field of at most eleven columns, stored as its canonical field.

#![tactic(auto)]

pub mod fields;
