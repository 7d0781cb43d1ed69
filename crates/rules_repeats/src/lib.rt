// Whether a heading that was found again may repeat there.

#![tactic(auto)]

pub mod repeats;
