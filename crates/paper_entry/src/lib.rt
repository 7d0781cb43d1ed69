// What document 01 says of judging an entry: what is counted, what is due, what a later rule may look back at, the judge. There is
// no code here but the type that its definitions name.

#![tactic(auto)]

pub mod types;
