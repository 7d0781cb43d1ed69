// What document 02, M-113, says of lines in the CINDA2001 layout: checking them, taking them apart, writing them back. There is no
// code here but the types that its definitions name.

#![tactic(auto)]

pub mod types;
