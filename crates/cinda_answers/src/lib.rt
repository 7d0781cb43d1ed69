// Lines that were checked: the answers about a line and its texts, and the lines written back.

#![tactic(auto)]

pub mod asked;
pub mod back;
pub mod pieces;
