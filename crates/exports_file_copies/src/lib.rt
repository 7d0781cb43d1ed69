// The library for host programs, entries and copies of files: functions as those of `exports`, in an archive of their own.

#![tactic(auto)]

pub mod copying;
