// The parts that questions by an index name, in place.

#![tactic(auto)]

pub mod handing;
