// The questions to an entry, answered from the row of their subentry: that each answer is the full one.

#![tactic(auto)]
