// The places of a code behind its nuclide, character by character.

#![tactic(auto)]

pub mod places;
