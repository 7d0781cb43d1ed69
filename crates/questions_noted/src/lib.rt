// Where a subentry stands, noted record by record.

#![tactic(auto)]

pub mod row;
