// What document 02 (M-108) says of why an entry is refused. There is no code here but the types that its definitions name.

#![tactic(auto)]

pub mod types;
