// What document 01 says of the canonical copy of an entry: the copy, what the call for it answers and stores, and what demand 3
// says of the copy itself. There is no code here.

#![tactic(auto)]
