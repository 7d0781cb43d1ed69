// What is said below a verdict is true: the characters mend the record, the other facts are those of the definitions.

#![tactic(auto)]
