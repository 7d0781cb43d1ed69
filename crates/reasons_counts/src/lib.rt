// What is said below a verdict for 8: a range or a count, by role and counts.

#![tactic(auto)]

pub mod counts;
