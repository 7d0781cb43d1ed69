// Number fields: writing a decimal as its one canonical field.

#![tactic(auto)]

pub mod write;
