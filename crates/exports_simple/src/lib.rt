// One of the three, blank, a double or a decimal, as a host program gets it.

#![tactic(auto)]

pub mod simple;
