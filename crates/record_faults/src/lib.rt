// Pointers, headings and units: which field of a record is not what it is to be.

#![tactic(auto)]

pub mod faults;
