// The state after a record without fault: what is due, and what a later rule may look back at.

#![tactic(auto)]

pub mod due;
pub mod parts;
