// Two answers that the promise of a public call allows are equal, call by call.

#![tactic(auto)]
