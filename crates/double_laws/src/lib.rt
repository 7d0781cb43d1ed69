// Values as doubles: what is asked so is what the value question says, for an accepted entry and its copy. There is no code here.

#![tactic(auto)]
