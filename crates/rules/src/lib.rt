// The table of refusals: the fault of a record, the first by the order of the rules.

#![tactic(auto)]

pub mod order;
