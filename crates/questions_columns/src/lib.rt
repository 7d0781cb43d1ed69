// The answers to questions for a heading or a unit of a column, from a row: of any numbers, to any bytes.

#![tactic(auto)]

pub mod answers;
