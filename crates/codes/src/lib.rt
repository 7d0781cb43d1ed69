// The question for a code under DECAY-DATA (document 02, M-106).

#![tactic(auto)]

pub mod code;
