// What a table of rules finds on a record or on a line, and which of it comes first. There is no code here but the type that its
// definitions name.

#![tactic(auto)]

pub mod types;
