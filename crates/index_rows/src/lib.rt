// What an index is: its rows, for an accepted entry. Definitions and proofs, and no code.

#![tactic(auto)]
