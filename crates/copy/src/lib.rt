// The canonical copy of an entry.

#![tactic(auto)]

pub mod copy;
