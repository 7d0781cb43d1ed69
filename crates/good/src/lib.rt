// What a good entry is, and that the judge accepts exactly those: definitions and proofs, and no code.

#![tactic(auto)]
