// The value in a field, as a question answers it.

#![tactic(auto)]

pub mod fields;
