// What the calls for a code under DECAY-DATA store and return beside its run.

#![tactic(auto)]

pub mod codes;
