// Laws of the judge's walk over the records: where it goes on, what an accepted entry is, that the verdict is the first in
// the order, and where the records of a table stand. There is no code here.

#![tactic(auto)]
