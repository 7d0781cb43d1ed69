// Where a walk stands, by its numbers alone.

#![tactic(auto)]

pub mod places;
