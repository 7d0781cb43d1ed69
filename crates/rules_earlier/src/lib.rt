// The search for an earlier heading that is equal.

#![tactic(auto)]

pub mod earlier;
