// What a file is: TRANS, accepted entries, ENDTRANS. There is no code here.

#![tactic(auto)]
