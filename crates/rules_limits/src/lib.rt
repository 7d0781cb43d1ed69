// The counts that a record announces, by the limits of each.

#![tactic(auto)]

pub mod limits;
