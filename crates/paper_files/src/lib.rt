// What document 01 and its requests say of a file of entries: the rules of TRANS and ENDTRANS, the judge of a file, its entries as parts.
// There is no code here but the type that its definitions name.

#![tactic(auto)]

pub mod types;
