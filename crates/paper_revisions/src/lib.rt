// What document 02, M-109, says of a held entry and its revision. There is no code here but the types that its definitions name.

#![tactic(auto)]

pub mod types;
