// The answer about a value, from the row of the subentry, whatever the bytes of the entry and the numbers of the row are.
ghost use Rattle.std.specs.Prelude.{◌≡◌};
ghost use Rattle.paper_index.specs.TableAnswers.{value_from_row};

use columns_places::places::place_of;
use paper_questions::types::{Row, ValueAnswer};
use paper_record::types::LineNo;
use questions_fields::fields::{refused_value, value_at};
use questions_numbers::numbers::{is_counted, section_in, table_identifier};
use questions_places::place::shape_from;
use questions_reads::reads::read_section;

// The value in a line and a column of the row's COMMON (section 1) or DATA (section 2).
pub fn value_from_row(
    entry: &[u8],
    row: Row,
    section: u32,
    line: LineNo,
    column: u32,
) -> ValueAnswer
    ensures { result ≡ value_from_row entry.now row section line column }
{
    let at = section_in(row, section);
    let identifier = table_identifier(section);
    let read = read_section(entry, row, at, identifier);
    let number = read.number;
    if number != 0 {
        return refused_value(number);
    }
    let n1 = read.n1;
    let n2 = read.n2;
    let shape = shape_from(section, n1, n2);
    let lines = shape.lines;
    let columns = shape.columns;
    if !is_counted(lines, line.0) {
        return refused_value(34);
    }
    if !is_counted(columns, column) {
        return refused_value(35);
    }
    let place = place_of(at, columns, line, column);
    value_at(entry, section, place)
}
