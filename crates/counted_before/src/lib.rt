// What is counted before a record, and what it is held against there, by the records before it.

#![tactic(auto)]
