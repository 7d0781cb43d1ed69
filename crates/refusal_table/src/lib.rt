// The table of refusals: on which records and at which columns each number stands; what is wrong there, for the rules
// that look back.

#![tactic(auto)]
