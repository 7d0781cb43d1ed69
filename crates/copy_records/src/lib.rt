// The canonical copy of one record.

#![tactic(auto)]

pub mod records;
