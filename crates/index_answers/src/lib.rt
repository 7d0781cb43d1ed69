// What is proved of questions by an index: theorems, and no code.

#![tactic(auto)]
