// Lines in the CINDA2001 layout, checked one after the other.

#![tactic(auto)]

pub mod check;
