// The library for host programs, lines in the CINDA2001 layout: functions as those of `exports`, in an archive of their own.

#![tactic(auto)]

pub mod lines;
