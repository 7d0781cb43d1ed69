// The types that the definitions name.
use paper_record::types::{Index, LineNo};

// What a count may be.
#[derive(Clone, Copy)]
pub enum Limit {
    AtLeast(u64),
    Between(u64, u64),
}

// Where a heading stands: a section and a column of it, both from 1.
#[derive(Clone, Copy)]
pub struct HeadingPlace {
    pub section: usize,
    pub column: usize,
}

// Records from one index up to another, that one not among them.
#[derive(Clone, Copy)]
pub struct Range {
    pub from: Index,
    pub past: Index,
}

// The records that a rule may look back at: this BIB so far, those under the keyword in hand, the BIB of 001; the
// heading records of the COMMON of 001, of this COMMON, of the section in hand.
#[derive(Clone, Copy)]
pub struct Ranges {
    pub bib: Range,
    pub under: Range,
    pub bib001: Range,
    pub common001: Range,
    pub common: Range,
    pub table: Range,
}

// What is due next.
#[derive(Clone, Copy)]
pub enum Phase {
    Start,
    Opened,
    InSubentry,
    InBib,
    AfterBib,
    InCommon,
    AfterCommon,
    InData,
    AfterData,
    Between,
    Done,
}

// The four totals so far.
#[derive(Clone, Copy)]
pub struct Totals {
    pub subentries: u32,
    pub keywords: u32,
    pub lines: u32,
    pub numbers: u32,
}

// The subentry in hand.
#[derive(Clone, Copy)]
pub struct Subentry {
    pub number: u32,
    // How many records stand between its SUBENT and the record in hand.
    pub records: u32,
}

// The BIB in hand: the keywords and records that it announces, and the keywords met.
#[derive(Clone, Copy)]
pub struct Bib {
    pub keywords: u64,
    pub records: u64,
    pub met: u32,
}

// The COMMON or DATA in hand, and where the record in hand stands in it.
#[derive(Clone, Copy)]
pub struct Table {
    // The columns that it announces, and the number of its last line.
    pub columns: u32,
    pub last: LineNo,
    // HEADINGS, UNITS or VALUES, and among the values the line.
    pub row: u32,
    pub line: LineNo,
    // How many columns of the row are left, those of the record in hand among them.
    pub rest: u32,
    // Whether the line is blank so far.
    pub blank: bool,
}

// What is counted and announced before the record in hand.
#[derive(Clone, Copy)]
pub struct Track {
    // How many records stand before it in the entry.
    pub records: Index,
    // The accession of ENTRY.
    pub accession: [u8; 5],
    pub totals: Totals,
    pub subentry: Subentry,
    // How many records stand between it and the system record that opens its section.
    pub section: u32,
    pub bib: Bib,
    pub table: Table,
}
