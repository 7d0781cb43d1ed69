// A line in the CINDA2001 layout, taken apart.

#![tactic(auto)]

pub mod apart;
