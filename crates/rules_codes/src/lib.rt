// The codes under the keyword FLAG of a BIB.

#![tactic(auto)]

pub mod codes;
