// The judge of a file: all records, one after the other, and the verdict.

#![tactic(auto)]

pub mod judge_file;
