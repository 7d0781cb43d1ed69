// What a verdict says, and what a call about an entry answers.

#![tactic(auto)]

pub mod answer;
pub mod verdict;
