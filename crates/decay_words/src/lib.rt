// The characters of a code cut into words: where a word stands, and how many there are.

#![tactic(auto)]

pub mod words;
