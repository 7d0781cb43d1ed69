// What document 02 (M-102) says of an index beside an entry: its rows, what a question by it reads, its answers. There is no code
// here but the types that its definitions name.

#![tactic(auto)]

pub mod types;
