// The library for host programs, judging files: functions as those of `exports`, in an archive of their own.

#![tactic(auto)]

pub mod transmissions;
