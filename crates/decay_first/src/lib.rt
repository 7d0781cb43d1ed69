// A code in its records (document 02, M-106): of 50 and 51 the first met, exactly. There is no code here.

#![tactic(auto)]
