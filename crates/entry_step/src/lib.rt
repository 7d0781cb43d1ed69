// One record after the other: the step of the judge, and that over an entry judged already.

#![tactic(auto)]

pub mod finish;
pub mod pass;
pub mod step;
