// The entries of a file passed one behind the other, and what of one of them is counted from the file's start.

#![tactic(auto)]

pub mod passed;
pub mod raising;
