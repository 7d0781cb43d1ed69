// Where a subentry stands in an entry, by the columns 72 to 74 of its records; the date of a record; and whose records of two entries
// are taken.

#![tactic(auto)]

pub mod extents;
pub mod taken;
