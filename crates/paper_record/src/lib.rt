// What document 01 says of one record: its columns, characters, words, names, counts, dates, values and headings. There is no code
// here but the types that its definitions name.

#![tactic(auto)]

pub mod types;
