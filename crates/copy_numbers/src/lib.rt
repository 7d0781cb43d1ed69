// Which fields of a record are number fields.

#![tactic(auto)]

pub mod fields;
