// The canonical copy of a file: what it is, and what holds of it. There is no code here.

#![tactic(auto)]
