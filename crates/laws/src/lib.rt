// Laws that every layer cites: definitions and proofs, and no code.

#![tactic(auto)]
