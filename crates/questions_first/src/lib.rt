// The subentry's first record, as a question reads it.

#![tactic(auto)]

pub mod first;
