// The library for host programs, questions and copies: functions as those of `exports`, in an archive of their own.

#![tactic(auto)]

pub mod asking;
pub mod copying;
