// Where things stand: records by their numbers, the shape of a section, the places of headings, units and values.
ghost use Rattle.std.specs.Prelude.{◌≡◌, ℕ, ◌≤◌, get_or, []};
ghost use Rattle.paper_rules.specs.Limits.{MOST-COLUMNS, MOST-LINES};
ghost use Rattle.paper_questions.specs.Place.{has_record, fields_at, shape_from, heading_place, unit_place, field_of};
ghost use Rattle.paper_questions.specs.Place.{first_byte, byte_of, InSection};

use columns::fields::field;
use columns_places::places::records_for;
use paper_questions::types::Shape;
use paper_record::types::{Place, RecordNo};
use record::system::up_to;
use rules_limits::limits::{MOST_COLUMNS, MOST_LINES};

// The sections of a table.
pub const COMMON_SECTION: u32 = 1;

pub const DATA_SECTION: u32 = 2;

// Whether an entry has a record with this number.
pub fn has_record(entry: &[u8], at: RecordNo) -> bool
    ensures { result ≡ has_record entry.now at }
{
    at.0 != 0 && at.0 as usize * 81 <= entry.len()
}

// A field, counted from 0, of the record with this number, blank where there is none.
pub fn field_at(entry: &[u8], at: RecordNo, k: u32) -> [u8; 11]
    requires { k ≤ 5 }
    ensures { result ≡ get_or (fields_at entry.now at) k [] }
{
    if !has_record(entry, at) {
        return [b' '; 11];
    }
    let before = at.0 as usize - 1;
    let from = before * 81;
    let past = from + 81;
    let column = k as usize * 11;
    field(&entry[from..past], column)
}

// The shape that the two counts of a section's record announce.
pub fn shape_from(section: u32, n1: u64, n2: u64) -> Shape
    ensures value { result ≡ shape_from section n1 n2 }
    ensures columns_bound { result.columns ≤ MOST-COLUMNS }
    ensures lines_bound { result.lines ≤ MOST-LINES }
{
    let columns = up_to(MOST_COLUMNS as u32, n1);
    if section == COMMON_SECTION {
        return Shape { columns, lines: 1 };
    }
    let lines = up_to(MOST_LINES as u32, n2);
    Shape { columns, lines }
}

// The heading of a column.
pub fn heading_place(section: RecordNo, column: u32) -> Place
    requires { InSection section column }
    ensures value { result ≡ heading_place section column }
    ensures field_bound { result.field ≤ 5 }
{
    let left = column - 1;
    let number = section.0 + (left / 6 + 1);
    let field = left % 6;
    let at = RecordNo(number);
    Place { at, field }
}

// The unit of a column.
pub fn unit_place(section: RecordNo, columns: u32, column: u32) -> Place
    requires in_section { InSection section column }
    requires columns_bound { columns ≤ MOST-COLUMNS }
    ensures value { result ≡ unit_place section columns column }
    ensures field_bound { result.field ≤ 5 }
{
    let k = records_for(columns);
    let left = column - 1;
    let number = section.0 + (k + (left / 6 + 1));
    let field = left % 6;
    let at = RecordNo(number);
    Place { at, field }
}

// The field at a place.
pub fn field_of(entry: &[u8], place: Place) -> [u8; 11]
    requires { place.field ≤ 5 }
    ensures { result ≡ field_of entry.now place }
{
    field_at(entry, place.at, place.field)
}

// The first byte of a record.
pub fn first_byte(at: RecordNo) -> usize
    ensures value { result ≡ first_byte at }
    ensures upper_bound { result ≤ 347892350976 }
{
    if at.0 == 0 {
        return 0;
    }
    let before = at.0 as usize - 1;
    before * 81
}

// The first byte of a place.
pub fn byte_of(place: Place) -> usize
    requires { place.field ≤ 5 }
    ensures { result ≡ byte_of place }
{
    first_byte(place.at) + place.field as usize * 11
}
