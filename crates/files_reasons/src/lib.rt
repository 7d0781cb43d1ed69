// Why a file is refused.

#![tactic(auto)]

pub mod explain_file;
pub mod within;
