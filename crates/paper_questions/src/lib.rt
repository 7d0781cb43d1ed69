// What document 01 says of the questions about an entry: their places, their refusals in order, their answers. There is no code here
// but the types that its definitions name.

#![tactic(auto)]

pub mod types;
