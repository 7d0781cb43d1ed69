// The index of an accepted entry, stored from system record to system record.

#![tactic(auto)]

pub mod walk;
