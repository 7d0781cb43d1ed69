// The library for host programs, number fields and decimals in hand as doubles: in an archive without the judge.

#![tactic(auto)]

pub mod hand;
pub mod reals;
