// Questions to an entry: values, headings, units and passages.

#![tactic(auto)]

pub mod ask;
