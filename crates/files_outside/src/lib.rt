// The rules for the two records of a file that belong to no entry, TRANS and ENDTRANS.

#![tactic(auto)]

pub mod outside;
