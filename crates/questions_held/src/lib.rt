// How many of the counted text records lie inside an entry, and what a passage among them is refused for.

#![tactic(auto)]

pub mod held;
