// What document 01 says of the canonical field: its characters, the answer of its writer, what a field becomes in a copy; and what
// is claimed of them. There is no code here but the types that its definitions name.

#![tactic(auto)]

pub mod types;
