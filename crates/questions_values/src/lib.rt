// The answer to a question for a value, from the row of the subentry.

#![tactic(auto)]

pub mod answers;
