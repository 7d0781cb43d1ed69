// The value question from a row and by an index with its value as a double: the same answer, and what the field says as one
// of the three.
ghost use Rattle.std.specs.Prelude.{◌≡◌};
ghost use Rattle.paper_double_asking.specs.Ask.{as_double, double_from_row, double_by_index, double_said};

use double::convert::doubled;
use index_asking::asking::value_by_index;
use paper_double_asking::types::DoubleAnswer;
use paper_questions::types::{Row, ValueAnswer};
use paper_record::types::LineNo;
use questions_values::answers::value_from_row;

// An answer about a value, its value as a double.
pub fn as_double(v: ValueAnswer) -> DoubleAnswer
    ensures value { result ≡ as_double v }
    ensures result_value { double_said result ≡ double_said (as_double v) }
{
    let answer = v.answer;
    let digits = v.digits;
    let said = v.value;
    let value = doubled(said);
    DoubleAnswer {
        answer,
        value,
        digits,
    }
}

// The value in a line and a column of COMMON (section 1) or DATA (section 2), from a row of any numbers.
pub fn double_from_row(
    entry: &[u8],
    row: Row,
    section: u32,
    line: LineNo,
    column: u32,
) -> DoubleAnswer
    ensures value { result ≡ double_from_row entry.now row section line column }
    ensures result_value { double_said result ≡ double_said (double_from_row entry.now row section line column) }
{
    let v = value_from_row(entry, row, section, line, column);
    as_double(v)
}

// The same by an index.
pub fn double_by_index(
    entry: &[u8],
    index: &[u32],
    number: u32,
    section: u32,
    line: LineNo,
    column: u32,
) -> DoubleAnswer
    ensures value { result ≡ double_by_index entry.now index.now number section line column }
    ensures result_value { double_said result
        ≡ double_said (double_by_index entry.now index.now number section line column) }
{
    let v = value_by_index(entry, index, number, section, line, column);
    as_double(v)
}
