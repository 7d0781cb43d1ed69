// Roles of records, faults, and the parts of the entry that a rule may look back at.

#![tactic(auto)]

pub mod fault;
pub mod ranging;
pub mod roles;
