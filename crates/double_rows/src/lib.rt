// The value question as a double, from a row and by an index.

#![tactic(auto)]

pub mod rows;
