// Questions about the parts of a good entry: each is answered from the line and column, or the keyword, that it names.

#![tactic(auto)]
