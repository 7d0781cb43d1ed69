// The rule for the pointers of DATA headings: refusal 14.

#![tactic(auto)]

pub mod pointers;
