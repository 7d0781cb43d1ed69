// The rules for headings and units: refusals 11 to 13.

#![tactic(auto)]

pub mod headings;
