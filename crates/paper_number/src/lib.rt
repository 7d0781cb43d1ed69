// What document 01 says of a number field: its grammar, its value, how many digits were written, the whole number that it says. There is
// no code here but the types that its definitions name.

#![tactic(auto)]

pub mod types;
