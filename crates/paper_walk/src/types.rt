// The types that the definitions name.
use paper_entry::types::Answer;
use paper_number::types::FieldRead;
use paper_record::types::{LineNo, RecordNo};

// Where a walk stands: the answer to the call that made it, the table's own record, its columns and lines, and the place that
// comes next.
#[derive(Clone, Copy)]
pub struct Walk {
    pub answer: Answer,
    pub section: RecordNo,
    pub columns: u32,
    pub lines: u32,
    pub line: LineNo,
    pub column: u32,
}

// A value, with its count of digits, and its line and column.
#[derive(Clone, Copy)]
pub struct Given {
    pub line: LineNo,
    pub column: u32,
    pub field: FieldRead,
}

// What is given, nothing where the walk is done, and where it stands then.
#[derive(Clone, Copy)]
pub struct Step {
    pub walk: Walk,
    pub given: Option<Given>,
}
