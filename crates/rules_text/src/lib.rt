// The rules for the text records of BIB: refusal 10, and 11 there.

#![tactic(auto)]

pub mod text;
