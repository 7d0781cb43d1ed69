// Flags: the words that ask for one, and the codes that explain one.

#![tactic(auto)]

pub mod flags;
