// The library for host programs, a held entry and its revision: functions as those of `exports`, in an archive of their own.

#![tactic(auto)]

pub mod asking;
