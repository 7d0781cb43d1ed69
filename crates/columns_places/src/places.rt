// Where things stand: record and line numbers, how many records stand before a record, and the place of a column in a line of
// a table.
ghost use Rattle.std.specs.Prelude.{◌≡◌, ℕ};
ghost use Rattle.paper_record.specs.Places.{record_of, offset_of, Counted, records_for, place_of, InTable};

use paper_record::types::{Index, LineNo, Place, RecordNo};

// The number of the record that has so many records before it.
pub fn record_of(i: Index) -> RecordNo
    requires { Counted i }
    ensures { result ≡ record_of i }
{
    RecordNo(i.0 + 1)
}

// The first byte of that record.
pub fn offset_of(i: Index) -> usize
    ensures { result ≡ offset_of i }
{
    i.0 as usize * 81
}

// How many records hold one row of a table.
pub fn records_for(columns: u32) -> u32
    ensures { result ≡ records_for columns }
{
    columns.div_ceil(6)
}

// The record and the field of a column in a line of the table that a system record opens.
pub fn place_of(section: RecordNo, columns: u32, line: LineNo, column: u32) -> Place
    requires { InTable section columns line column }
    ensures { result ≡ place_of section columns line column }
{
    let k = u64::from(records_for(columns));
    let above = u64::from(line.0) - 1;
    let left = column - 1;
    let part = u64::from(left / 6) + 1;
    let lines = above * k + part;
    let number = u64::from(section.0) + (2 * k + lines);
    let at = RecordNo(number as u32);
    let field = left % 6;
    Place { at, field }
}
