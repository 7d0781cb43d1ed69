// The library for host programs, values as doubles: functions as those of `exports`, in an archive of their own.

#![tactic(auto)]

pub mod doubles;
