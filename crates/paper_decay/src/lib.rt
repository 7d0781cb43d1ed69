// What document 02, M-106, says of the codes under DECAY-DATA: the grammar of a code, its fields, its run, and the reading of a code character
// by character. There is no code here but the types that its definitions name.

#![tactic(auto)]

pub mod types;
