// The library for host programs, why an entry or a file is refused: functions as those of `exports`, in an archive of their own.

#![tactic(auto)]

pub mod explaining;
