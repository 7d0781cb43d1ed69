// The system records of an accepted entry, from each to the next. Definitions and proofs, and no code.

#![tactic(auto)]
