// The library for host programs: functions on numbers and byte slices, under C names. A call returns its number and
// what stands beside it in one word (exports_words, Words); what it answers it stores in an array that the caller lends.

#![tactic(auto)]

pub mod judging;
pub mod numbers;
pub mod version;
