// What the calls about a held entry and its revision store and return.

#![tactic(auto)]

pub mod picks;
