// From one record of a file on: the records of an entry, or one that belongs to none.

#![tactic(auto)]

pub mod step;
