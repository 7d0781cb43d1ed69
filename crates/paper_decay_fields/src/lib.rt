// The places of a code's fields in its characters (document 02, M-106). There is no code here but the types that its definitions name.

#![tactic(auto)]

pub mod types;
