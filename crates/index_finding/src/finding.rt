// The first row of an index with the number of a subentry.
ghost use Rattle.std.specs.Prelude.{◌≡◌, ℕ, ◌≤◌, ◌<◌, ◌/◌, length};
ghost use Rattle.paper_questions.specs.Row.{empty_row};
ghost use Rattle.paper_index.specs.ByIndex.{row_in, rows_before, row_by_index};

use paper_index::types::RowAnswer;
use paper_questions::types::Row;
use paper_record::types::RecordNo;
use questions_noted::row::empty_row;

// How many rows stand before the first with this number; all of them where there is none.
fn rows_before(index: &[u32], number: u32) -> usize
    ensures value { result ≡ rows_before index.now number }
    ensures upper_bound { result ≤ length index.now / 5 }
{
    let rows = index.len() / 5;
    for i in 0..rows {
        let at = i * 5;
        if index[at] == number {
            return i;
        }
    }
    rows
}

// The row that has so many before it.
fn row_in(index: &[u32], before: usize) -> Row
    requires { before < length index.now / 5 }
    ensures { result ≡ row_in index.now before }
{
    let at = before * 5;
    Row {
        number: index[at],
        first: RecordNo(index[at + 1]),
        bib: RecordNo(index[at + 2]),
        common: RecordNo(index[at + 3]),
        data: RecordNo(index[at + 4]),
    }
}

// No such row: the refusal, and an empty row.
fn no_such_row(refusal: u8, number: u32) -> RowAnswer
    ensures { result ≡ record { number = refusal; before = 0; row = empty_row number } }
{
    let row = empty_row(number);
    RowAnswer {
        number: refusal,
        before: 0,
        row,
    }
}

// The first row with this number, or 38 or 32.
pub fn find_row(index: &[u32], number: u32) -> RowAnswer
    ensures { result ≡ row_by_index index.now number }
{
    let rest = index.len() % 5;
    if rest != 0 {
        return no_such_row(38, number);
    }
    let before = rows_before(index, number);
    let rows = index.len() / 5;
    if before == rows {
        return no_such_row(32, number);
    }
    let row = row_in(index, before);
    RowAnswer {
        number: 0,
        before,
        row,
    }
}
