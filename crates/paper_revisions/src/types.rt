// The types that the definitions name.
use paper_entry::types::Answer;

// The records of a subentry, from one index up to another, that one not among them; none where both are equal.
#[derive(Clone, Copy)]
pub struct Extent {
    pub from: usize,
    pub past: usize,
}

// What both calls answer before they look for a subentry. The number is 0, 60 or 61; beside 60 stands what `Picked` says.
#[derive(Clone, Copy)]
pub struct Both {
    pub answer: Answer,
    pub which: u8,
}

// The number of an answer is 0, 60, 61, 32 or 62; beside 60 stand the entry's own refusal, record and column, and which entry it is: 1 the
// held one, 2 the revision. The part lies in the revision or in the held entry; it is empty where it is refused.
#[derive(Clone, Copy)]
pub struct Picked {
    pub answer: Answer,
    pub which: u8,
    pub revision: bool,
    pub first: usize,
    pub length: usize,
}

// The number of an answer is 0, 60, 61, 37 or 63; beside 60 as above, beside 63 the merge's own refusal, record and column. With 0
// and 63 so many bytes of the buffer are the merge's, else none.
#[derive(Clone, Copy)]
pub struct Merged {
    pub answer: Answer,
    pub which: u8,
    pub length: usize,
}
