// The copy of one field, stored in its place.

#![tactic(auto)]

pub mod fields;
