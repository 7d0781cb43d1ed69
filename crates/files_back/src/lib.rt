// No answer about a file is lost in its word and its array. There is no code here.

#![tactic(auto)]
