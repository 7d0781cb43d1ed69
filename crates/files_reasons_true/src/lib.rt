// What is said below the verdict on a file: inside an entry it is the reason of that entry alone, on ENDTRANS the number of entries.

#![tactic(auto)]
