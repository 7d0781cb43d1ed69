// Lines in the CINDA2001 layout: taken apart, and written back. They are checked by cinda_check.

#![tactic(auto)]

pub mod ask;
pub mod back;
