// The refusal depends on nothing below it, and hangs on the record that it names.

#![tactic(auto)]
