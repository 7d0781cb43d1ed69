// What the calls about a walk store and return.

#![tactic(auto)]

pub mod walks;
