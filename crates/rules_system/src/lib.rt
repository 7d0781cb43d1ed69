// The rule for the fields of system records: refusal 7.

#![tactic(auto)]

pub mod system;
