// The merge by two cursors is the merge of two accepted entries: theorems, and no code.

#![tactic(auto)]
