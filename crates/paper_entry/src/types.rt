// The types that the definitions name.
use paper_record::types::RecordNo;
use paper_rules::types::Totals;

// What a record does to a part that a later rule may look back at.
#[derive(Clone, Copy)]
pub enum Change {
    Kept,
    Emptied,
    Begun,
    Joined,
}

// Refusal 0, record 0 and column 0 with the totals, or the refusal with zeros; in a file also the ordinal of the entry.
#[derive(Clone, Copy)]
pub struct Verdict {
    pub refusal: u8,
    pub record: RecordNo,
    pub column: u8,
    pub totals: Totals,
    pub ordinal: u32,
}

// 0 done, else document 01's number; beside 31 the entry's own refusal with its record and column, of a file also the
// ordinal of the entry; zeros with any other.
#[derive(Clone, Copy)]
pub struct Answer {
    pub number: u8,
    pub refusal: u8,
    pub record: RecordNo,
    pub column: u8,
    pub ordinal: u32,
}
