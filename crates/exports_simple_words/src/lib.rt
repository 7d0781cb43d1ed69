// The words that tell which of the three it is.

#![tactic(auto)]

pub mod words;
