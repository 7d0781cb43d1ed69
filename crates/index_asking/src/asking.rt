// The question for a value by an index. Nothing is judged: it is answered from the first row with the number of the subentry.
ghost use Rattle.std.specs.Prelude.{◌≡◌};
ghost use Rattle.paper_index.specs.ByIndex.{value_by_index};

use index_finding::finding::find_row;
use paper_questions::types::ValueAnswer;
use paper_record::types::LineNo;
use questions_fields::fields::refused_value;
use questions_values::answers::value_from_row;

// The value in a line and a column of COMMON (section 1) or DATA (section 2) of a subentry.
pub fn value_by_index(
    entry: &[u8],
    index: &[u32],
    number: u32,
    section: u32,
    line: LineNo,
    column: u32,
) -> ValueAnswer
    ensures { result ≡ value_by_index entry.now index.now number section line column }
{
    let found = find_row(index, number);
    let refusal = found.number;
    if refusal != 0 {
        return refused_value(refusal);
    }
    let row = found.row;
    value_from_row(entry, row, section, line, column)
}
