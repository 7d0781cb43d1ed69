// What the calls about questions store and return.

#![tactic(auto)]

pub mod parts;
