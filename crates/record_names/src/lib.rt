// The sixteen system identifiers: their names, the one that a field is, and those that begin with END.

#![tactic(auto)]

pub mod identifier;
