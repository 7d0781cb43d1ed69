// Number fields: how many digits the author wrote.

#![tactic(auto)]

pub mod digits;
