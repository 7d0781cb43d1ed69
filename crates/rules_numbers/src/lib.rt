// The rule for subentry numbers: refusal 9.

#![tactic(auto)]

pub mod numbers;
