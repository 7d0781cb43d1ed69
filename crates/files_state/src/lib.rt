// The state between two records of a file, what a record does to it, and what a verdict takes from it.

#![tactic(auto)]

pub mod state;
pub mod verdict;
