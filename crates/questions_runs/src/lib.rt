// The answer to a question for a passage, the run of text records, from a row: of any numbers, to any bytes.

#![tactic(auto)]

pub mod answers;
