// The library for host programs, the question for a code under DECAY-DATA: a function as those of `exports`, in an archive of its own.

#![tactic(auto)]

pub mod asking;
