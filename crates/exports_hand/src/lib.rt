// A decimal in hand.

#![tactic(auto)]

pub mod hand;
