// Which of two entries hands a subentry out, and the part of that one; no entry is judged here.

#![tactic(auto)]

pub mod both;
pub mod handing;
pub mod pick;
