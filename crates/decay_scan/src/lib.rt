// The characters of a DECAY-DATA code, one after the other.

#![tactic(auto)]

pub mod scan;
pub mod step;
