// What is answered of lines in the CINDA2001 layout, in plain words.

#![tactic(auto)]
