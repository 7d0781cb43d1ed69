// A held entry and its revision: subentry n as a part of whichever of the two hands it out.

#![tactic(auto)]

pub mod both;
pub mod subentry;
