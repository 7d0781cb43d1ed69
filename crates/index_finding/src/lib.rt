// The rows of an index: the first with the number of a subentry.

#![tactic(auto)]

pub mod finding;
