// A walker: it keeps the entry and its place in it.

#![tactic(auto)]

pub mod walker;
