// A code of a passage, by its number (document 02, M-106), and the answer that it gives in an entry.

#![tactic(auto)]

pub mod answer;
pub mod code;
pub mod opening;
