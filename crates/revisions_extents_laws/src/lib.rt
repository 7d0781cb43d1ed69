// Where a subentry stands in an accepted entry, by columns 72 to 74: theorems, and no code.

#![tactic(auto)]
