// Number fields: the walk over a field of at most eleven columns, from one place to the next.

#![tactic(auto)]

pub mod walk;
