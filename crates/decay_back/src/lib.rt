// Calls about codes under DECAY-DATA for host programs: no answer is lost in its word and its arrays. There is no code here.

#![tactic(auto)]
