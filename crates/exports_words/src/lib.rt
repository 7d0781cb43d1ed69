// How a call answers a host program: the word that it returns.

#![tactic(auto)]

pub mod words;
