// Number fields: how the canonical field of a decimal is laid out.

#![tactic(auto)]

pub mod layout;
