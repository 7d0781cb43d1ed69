// Lines written back: the energies made canonical, every other byte as it is.

#![tactic(auto)]

pub mod lines;
