// The rule for value records: refusal 15.

#![tactic(auto)]

pub mod values;
