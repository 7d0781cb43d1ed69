// The columns of a line in the CINDA2001 layout: whole numbers, the words of the target, the reference date.

#![tactic(auto)]

pub mod date;
pub mod integer;
pub mod nucleus;
