// The judge: all records, one after the other, and the verdict on an entry.

#![tactic(auto)]

pub mod judge;
