// The library for host programs, codes under DECAY-DATA: functions as those of `exports`, in an archive of their own. None judges.

#![tactic(auto)]

pub mod fields;
pub mod passages;
