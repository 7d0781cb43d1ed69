// Making the index of an entry.

#![tactic(auto)]

pub mod making;
