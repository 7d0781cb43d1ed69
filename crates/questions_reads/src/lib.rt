// What a question reads before the asked field: the subentry's first record, and the section's.

#![tactic(auto)]

pub mod reads;
