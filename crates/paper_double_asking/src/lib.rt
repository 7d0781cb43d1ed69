// The questions for values as doubles, as definitions, and the type of their answer. There is no code here.

#![tactic(auto)]

pub mod types;
