// The passages of a BIB section: where one begins, and where it ends, among the first so many of its text records.

#![tactic(auto)]

pub mod passage;
