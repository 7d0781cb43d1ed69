// The canonical copy of the records of an accepted entry.

#![tactic(auto)]

pub mod walk;
