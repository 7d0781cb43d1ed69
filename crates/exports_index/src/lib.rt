// The library for host programs, the index: functions as those of `exports`, in an archive of their own.

#![tactic(auto)]

pub mod asking;
pub mod making;
