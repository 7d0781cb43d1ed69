// Why an entry is refused.

#![tactic(auto)]

pub mod explain;
pub mod state;
