// Headings, units and passages by an index: the answers from the first row with the number of the subentry.

#![tactic(auto)]

pub mod parts;
