// Where the answers stand: records by their numbers, and the places and shapes of tables.

#![tactic(auto)]

pub mod place;
