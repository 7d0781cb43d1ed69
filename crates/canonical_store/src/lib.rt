// Number fields: storing the bytes of a canonical field that is laid out.

#![tactic(auto)]

pub mod store;
