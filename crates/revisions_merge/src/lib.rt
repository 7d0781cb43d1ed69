// A held entry and its revision as one entry.

#![tactic(auto)]

pub mod merge;
