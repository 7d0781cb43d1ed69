// The copy of a file, stored entry by entry.

#![tactic(auto)]

pub mod walk;
