// The rules that look back, in plain words over records.

#![tactic(auto)]
