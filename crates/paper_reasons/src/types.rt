// The types that the definitions name.
use paper_entry::types::Verdict;
use paper_record::types::RecordNo;

// What stands below a verdict: nothing; the announced and the true count; the least and the greatest, 0 for no greatest; the
// number of the subentry before; record and column of the first equal heading; the pointer; the characters that are expected.
#[derive(Clone, Copy)]
pub enum Facts {
    Alone,
    Count(u64, u64),
    Range(u64, u64),
    Previous(u32),
    Equal(RecordNo, u8),
    Pointer(u8),
    Expected,
}

// An enum holds no array, so the characters stand beside it: eight, five and blanks behind them, or blanks.
#[derive(Clone, Copy)]
pub struct Reason {
    pub facts: Facts,
    pub characters: [u8; 8],
}

#[derive(Clone, Copy)]
pub struct Explained {
    pub verdict: Verdict,
    pub reason: Reason,
}

// Entries of a file that were passed, one behind the other: how many, and the byte behind them.
#[derive(Clone, Copy)]
pub struct Passed {
    pub entries: u32,
    pub at: usize,
}
