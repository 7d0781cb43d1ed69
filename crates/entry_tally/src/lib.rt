// What one record adds to the counts, by what it is.

#![tactic(auto)]

pub mod tally;
