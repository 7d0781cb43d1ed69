// Demand 2: verdicts, totals, and numbers read and written, as a whole.

#![tactic(auto)]
