// Demand 3: questions asked of an entry and of its canonical copy, and the demand as a whole.

#![tactic(auto)]
