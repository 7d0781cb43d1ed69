// The rules for every record: refusals 2 to 6.

#![tactic(auto)]

pub mod every;
