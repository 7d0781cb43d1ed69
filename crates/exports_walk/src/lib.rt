// The library for host programs, values in order: functions as those of `exports`, in an archive of their own.

#![tactic(auto)]

pub mod walking;
