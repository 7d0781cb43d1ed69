// The one operation that is rounded.

#![tactic(auto)]

pub mod once;
