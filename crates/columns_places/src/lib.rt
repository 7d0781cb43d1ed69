// Where things stand: record numbers and line numbers, and the place of a column in a table.

#![tactic(auto)]

pub mod places;
