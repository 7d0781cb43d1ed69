// What the columns of a number field spell.

#![tactic(auto)]

pub mod spell;
