// What is said below a verdict for 8 and 13, from what stands before the record.

#![tactic(auto)]

pub mod facts;
