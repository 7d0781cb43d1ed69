// Demand 3 of the mission for codes under DECAY-DATA (document 02, M-106). There is no code here.

#![tactic(auto)]
