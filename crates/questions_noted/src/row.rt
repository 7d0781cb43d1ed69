// Where a subentry stands, noted record by record.
ghost use Rattle.std.specs.Prelude.{◌≡◌};
ghost use Rattle.paper_questions.specs.Row.{empty_row, noted, noted_in};

use paper_questions::types::Row;
use paper_record::types::RecordNo;
use record_names::identifier::{BIB, COMMON, DATA};
use rules_roles::roles::opens_subentry;

pub fn empty_row(number: u32) -> Row
    ensures { result ≡ empty_row number }
{
    Row {
        number,
        first: RecordNo(0),
        bib: RecordNo(0),
        common: RecordNo(0),
        data: RecordNo(0),
    }
}

// The row, after a record of its subentry.
#[tactic(auto, unfolding(paper_questions::specs::Row::noted))]
fn noted(row: Row, role: usize, at: RecordNo) -> Row
    ensures { result ≡ noted row role at }
{
    if opens_subentry(role) {
        Row { first: at, ..row }
    } else if role == BIB {
        Row { bib: at, ..row }
    } else if role == COMMON {
        Row { common: at, ..row }
    } else if role == DATA {
        Row { data: at, ..row }
    } else {
        row
    }
}

// The row, after a record of the subentry with a number.
pub fn noted_in(row: Row, number: u32, role: usize, at: RecordNo) -> Row
    ensures { result ≡ noted_in row number role at }
{
    if number == row.number {
        noted(row, role, at)
    } else {
        row
    }
}
