// The questions inside an entry's own shape: that each is answered.

#![tactic(auto)]
