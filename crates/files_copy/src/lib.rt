// The canonical copy of a file.

#![tactic(auto)]

pub mod copy_file;
