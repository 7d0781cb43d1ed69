// Calls about a held entry and its revision for host programs: no answer is lost in its word and its array. There is no code here.

#![tactic(auto)]
