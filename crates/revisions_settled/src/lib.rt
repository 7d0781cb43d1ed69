// What is answered of a merge: by the room for it, and by the verdict on it; no entry is judged here.

#![tactic(auto)]

pub mod settled;
