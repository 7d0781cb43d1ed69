// The fields of TRANS: the file identifier and the date.

#![tactic(auto)]

pub mod trans;
