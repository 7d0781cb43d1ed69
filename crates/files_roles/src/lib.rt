// What a record of a file is, and the ordinal that goes with its fault.

#![tactic(auto)]

pub mod role;
