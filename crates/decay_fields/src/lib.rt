// The fields of a code, asked of its characters; the run's are among these.

#![tactic(auto)]

pub mod code;
pub mod fields;
