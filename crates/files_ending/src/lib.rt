// How long a file may be, and the verdict behind its last record.

#![tactic(auto)]

pub mod ending;
pub mod limits;
