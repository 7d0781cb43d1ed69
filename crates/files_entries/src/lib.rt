// The entries of a file are met as its parts. There is no code here.

#![tactic(auto)]
