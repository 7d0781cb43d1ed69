// The entries of a file as parts of the caller's file.

#![tactic(auto)]

pub mod parts;
