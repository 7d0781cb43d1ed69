// What the calls about the fields of a code under DECAY-DATA store and return.

#![tactic(auto)]

pub mod groups;
pub mod heads;
pub mod parts;
