// The question for a code of a passage (document 02, M-106). There is no code here but the types that its definitions name.

#![tactic(auto)]

pub mod types;
