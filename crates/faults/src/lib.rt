// What a rule finds, as what the rules come to.

#![tactic(auto)]

pub mod found;
