// The heading and the unit in a field, as a question reads them.

#![tactic(auto)]

pub mod headings;
