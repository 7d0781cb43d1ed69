// The merge of a held entry and its revision, written by two cursors.

#![tactic(auto)]

mod chosen;
mod ends;
pub mod merging;
mod parts;
pub mod types;
