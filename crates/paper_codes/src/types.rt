// The types that the definitions name.
use paper_entry::types::Answer;

// What a code of a passage comes to: 0, 36, 50, 51 or 52; beside 50 and 51 the record by its index in the passage, and the column; beside 0
// how long its run is. Zeros beside all else.
#[derive(Clone, Copy)]
pub struct CodeIn {
    pub number: u8,
    pub at: usize,
    pub column: usize,
    pub length: usize,
}

// The number of an answer is 0, 31, 32, 33, 36, 50, 51 or 52; beside 50 and 51 stand the record and the column. The run stands in the
// first `length` bytes that were lent.
#[derive(Clone, Copy)]
pub struct CodeAnswer {
    pub answer: Answer,
    pub length: usize,
}
