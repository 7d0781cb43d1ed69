// Headings that may repeat.

#![tactic(auto)]

pub mod repeats;
