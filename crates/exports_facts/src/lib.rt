// How a verdict and its reason are answered to a host program: the word that the call returns, and three lent arrays.

#![tactic(auto)]

pub mod facts;
