// A code as one run (document 02, M-106): its characters without breaks, its numbers canonical. There is no code here.

#![tactic(auto)]
