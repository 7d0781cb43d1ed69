// A DECAY-DATA code in the records of its passage.

#![tactic(auto)]

pub mod records;
