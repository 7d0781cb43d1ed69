// The ranges of records that are kept follow the parts that a rule may look back at.

#![tactic(auto)]
