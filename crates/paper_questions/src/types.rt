// The types that the definitions name.
use paper_entry::types::{Answer, Verdict};
use paper_number::types::Reading;
use paper_record::types::RecordNo;

// How many columns a table has, and how many lines.
#[derive(Clone, Copy)]
pub struct Shape {
    pub columns: u32,
    pub lines: u32,
}

// The first record of a passage, and how many it has; none where there is no such passage.
#[derive(Clone, Copy)]
pub struct Passage {
    pub first: RecordNo,
    pub records: u32,
}

// A subentry's number, its first record, and the records BIB, COMMON and DATA, 0 where there is none.
#[derive(Clone, Copy)]
pub struct Row {
    pub number: u32,
    pub first: RecordNo,
    pub bib: RecordNo,
    pub common: RecordNo,
    pub data: RecordNo,
}

#[derive(Clone, Copy)]
pub struct Located {
    pub verdict: Verdict,
    pub row: Row,
}

// The number of each answer is 0 or 31 to 36, by an index also 38 or 39. Beside a value stands how many digits were written in its
// field: 0 beside a blank and beside a refusal.
#[derive(Clone, Copy)]
pub struct ValueAnswer {
    pub answer: Answer,
    pub value: Reading,
    pub digits: u8,
}

// A part of the entry by its first byte and its length, and a pointer. The number of each answer is 0 or 31 to 36, by an index also
// 38 or 39.
#[derive(Clone, Copy)]
pub struct PartAnswer {
    pub answer: Answer,
    pub first: usize,
    pub length: usize,
    pub pointer: u8,
}
