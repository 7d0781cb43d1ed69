// The rule for counts: refusal 8.

#![tactic(auto)]

pub mod counts;
