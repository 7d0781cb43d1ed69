// What is said below a verdict for 13: the record and the column of the heading that is found.

#![tactic(auto)]

pub mod places;
