// How a verdict is answered to a host program: the word that the call returns, and the totals in four numbers.

#![tactic(auto)]

pub mod verdicts;
