// Making an index: what a record leaves in the rows.

#![tactic(auto)]

pub mod noted;
