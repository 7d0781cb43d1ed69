// One record as columns: its line feed, and the six fields.

#![tactic(auto)]

pub mod columns;
pub mod fields;
