// The classes of characters, and which are permitted.

#![tactic(auto)]

pub mod class;
