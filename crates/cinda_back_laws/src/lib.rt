// What is claimed of lines written back: they are good, read alike and are their own writing.

#![tactic(auto)]
