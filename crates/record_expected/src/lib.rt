// What is written in columns 67 to 79 of a record, and what is expected there.

#![tactic(auto)]

pub mod expected;
