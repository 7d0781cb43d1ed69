// Where a subentry stands in an entry: its row.

#![tactic(auto)]

pub mod row;
