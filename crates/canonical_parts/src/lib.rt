// Number fields: the parts of a canonical field, how many columns they take, and each stored by itself.

#![tactic(auto)]

pub mod parts;
