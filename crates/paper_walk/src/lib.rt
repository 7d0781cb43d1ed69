// What document 02 (M-112) says of a walk over the values of a table. There is no code here but the types that its definitions name.

#![tactic(auto)]

pub mod types;
