// Calls for host programs: no answer is lost in its word and its array, and a keyword not of ten bytes has no place. There is
// no code here.

#![tactic(auto)]
