// The types that the definitions name.
use paper_entry::types::Answer;
use paper_questions::types::Row;

// What making an index answers: 0, 31 or 38, and how many rows the entry has, none where it is refused.
#[derive(Clone, Copy)]
pub struct Made {
    pub answer: Answer,
    pub rows: u32,
}

// What is read of a subentry's first record and of a section's: the number 0 and the section's two counts, or the number of a
// refusal with zeros.
#[derive(Clone, Copy)]
pub struct SectionRead {
    pub number: u8,
    pub n1: u64,
    pub n2: u64,
}

// The first row with a number: 0, how many rows stand before it, and the row; or 38 or 32 with a zero and an empty row.
#[derive(Clone, Copy)]
pub struct RowAnswer {
    pub number: u8,
    pub before: usize,
    pub row: Row,
}
