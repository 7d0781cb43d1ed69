// The flag and the nuclide of a code, character by character.

#![tactic(auto)]

pub mod nuclide;
