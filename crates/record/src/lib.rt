// One record of 80 columns: counts and dates; and what is said of a record in plain words.

#![tactic(auto)]

pub mod system;
