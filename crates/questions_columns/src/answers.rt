// The answers about a heading and a unit from a row, whatever bytes and numbers these are.
ghost use Rattle.std.specs.Prelude.{◌≡◌, [], ◌∷◌, ◌++◌, ◌≤◌};
ghost use Rattle.paper_rules.specs.Limits.{MOST-COLUMNS};
ghost use Rattle.paper_entry.specs.Answer.{refusal, first_of};
ghost use Rattle.paper_questions.specs.Place.{shape_of, InSection};
ghost use Rattle.paper_questions.specs.Refused.{no_column};
ghost use Rattle.paper_index.specs.Reads.{read_refusals, table_identifier};
ghost use Rattle.paper_index.specs.TableAnswers.{heading_from_row, unit_from_row};

use paper_questions::types::{PartAnswer, Row};
use paper_record::types::RecordNo;
use questions_headings::headings::{heading_at, unit_at};
use questions_numbers::numbers::{is_counted, section_in, table_identifier};
use questions_parts::answers::{part_from, refused_part};
use questions_places::place::{byte_of, heading_place, shape_from, unit_place};
use questions_reads::reads::read_section;

// What is read before the field that is asked for: the number of the first refusal, or 0 and the section's columns.
#[derive(Clone, Copy)]
struct ColumnRead {
    number: u8,
    columns: u32,
}

// The subentry's first record, the section's, and the column that it has.
fn column_read(entry: &[u8], row: Row, at: RecordNo, section: u32, column: u32) -> ColumnRead
    ensures number_value { result.number ≡ first_of (read_refusals entry.now row at (table_identifier section)
        ++ (refusal 35 (no_column (shape_of entry.now section at) column) ∷ [])) }
    ensures columns_value { result.number ≡ 0 → result.columns ≡ (shape_of entry.now section at).columns }
    ensures in_section { result.number ≡ 0 → InSection at column }
    ensures columns_bound { result.columns ≤ MOST-COLUMNS }
{
    let identifier = table_identifier(section);
    let read = read_section(entry, row, at, identifier);
    let number = read.number;
    if number != 0 {
        return ColumnRead { number, columns: 0 };
    }
    let n1 = read.n1;
    let n2 = read.n2;
    let shape = shape_from(section, n1, n2);
    let columns = shape.columns;
    if !is_counted(columns, column) {
        return ColumnRead {
            number: 35,
            columns: 0,
        };
    }
    ColumnRead { number: 0, columns }
}

// The heading of a column of the row's COMMON (section 1) or DATA (section 2).
pub fn heading_from_row(entry: &[u8], row: Row, section: u32, column: u32) -> PartAnswer
    ensures { result ≡ heading_from_row entry.now row section column }
{
    let at = section_in(row, section);
    let read = column_read(entry, row, at, section, column);
    let number = read.number;
    if number != 0 {
        return refused_part(number);
    }
    let place = heading_place(at, column);
    let heading = heading_at(entry, place);
    if !heading.good {
        return refused_part(39);
    }
    let first = byte_of(place);
    let pointer = heading.pointer;
    part_from(entry, first, 10, pointer)
}

// The unit of a column. The heading's pointer stands beside it, so both fields are read.
pub fn unit_from_row(entry: &[u8], row: Row, section: u32, column: u32) -> PartAnswer
    ensures { result ≡ unit_from_row entry.now row section column }
{
    let at = section_in(row, section);
    let read = column_read(entry, row, at, section, column);
    let number = read.number;
    if number != 0 {
        return refused_part(number);
    }
    let columns = read.columns;
    let above = heading_place(at, column);
    let place = unit_place(at, columns, column);
    let heading = heading_at(entry, above);
    let unit = unit_at(entry, place);
    let named = heading.good && unit;
    if !named {
        return refused_part(39);
    }
    let first = byte_of(place);
    let pointer = heading.pointer;
    part_from(entry, first, 10, pointer)
}
