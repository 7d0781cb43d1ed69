// A decimal as a double, where one rounding makes it one.

#![tactic(auto)]

pub mod convert;
