// Values in order: a walk over one table, from the row of its subentry.

#![tactic(auto)]

pub mod walk;
