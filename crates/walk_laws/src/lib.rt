// A walk over the values of a table: that it is made by the row of its subentry, and gives what the value question says.

#![tactic(auto)]
