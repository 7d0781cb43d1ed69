// A value by an index: the answer from the first row with the number of the subentry.

#![tactic(auto)]

pub mod asking;
