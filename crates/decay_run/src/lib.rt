// The run of a code, stored from a place of a buffer on, as far as the buffer goes: field by field, text by text, record by
// record.

#![tactic(auto)]

pub mod fields;
pub mod records;
pub mod texts;
