// The tables that judging reads, made once and lent together.

#![tactic(auto)]

pub mod tables;
