// From system record to system record, and the row of a subentry on that way.

#![tactic(auto)]

pub mod row;
pub mod system;
