// The fields of a line in the CINDA2001 layout behind the target: block and sequence, energies, reference date.

#![tactic(auto)]

pub mod block;
pub mod date;
pub mod energy;
