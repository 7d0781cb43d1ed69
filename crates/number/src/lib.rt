// Number fields: what a field says, its form, and stripping zeros.

#![tactic(auto)]

pub mod form;
pub mod value;
