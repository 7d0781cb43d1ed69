// A number field as a call answers it, in eight numbers.

#![tactic(auto)]

pub mod values;
