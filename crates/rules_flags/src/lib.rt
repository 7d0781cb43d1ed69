// The rule for values under FLAG and DECAY-FLAG: refusal 17.

#![tactic(auto)]

pub mod flags;
