// A passage asked of an entry is the passage from its row: definitions and proofs, and no code.

#![tactic(auto)]
