// What a record is: its role, from what is due and its system identifier.

#![tactic(auto)]

pub mod role;
