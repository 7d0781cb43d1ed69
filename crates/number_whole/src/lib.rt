// Number fields: whether an exponent is written, and the whole number that a field without one says.

#![tactic(auto)]

pub mod whole;
