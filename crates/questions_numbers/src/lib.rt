// What a question knows by numbers alone, before it reads a record.

#![tactic(auto)]

pub mod numbers;
pub mod row;
