// The target of a line in the CINDA2001 layout.

#![tactic(auto)]

pub mod target;
