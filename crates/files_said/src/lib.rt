// What a file's verdict says, in plain words. There is no code here.

#![tactic(auto)]
