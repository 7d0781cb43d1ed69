// The first rules for a line in the CINDA2001 layout, and the fault of a line by the order of all of them.

#![tactic(auto)]

pub mod order;
pub mod rules;
