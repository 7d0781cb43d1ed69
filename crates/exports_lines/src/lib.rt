// What the calls about lines store and return.

#![tactic(auto)]

pub mod lines;
