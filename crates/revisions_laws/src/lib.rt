// What the two calls on a held entry and its revision answer, and what the merged entry is: theorems, and no code.

#![tactic(auto)]
