// The part of the entry that an answer names: said by its place, refused, and handed out.

#![tactic(auto)]

pub mod answers;
pub mod handing;
