// What the rules stand on: the state between two records.

#![tactic(auto)]

pub mod state;
