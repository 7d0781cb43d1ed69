// What document 01 says of the rules, each in turn, and their order. There is no code here but the types that its definitions
// name.

#![tactic(auto)]

pub mod types;
