// Questions by an index for a part of the entry. Nothing is judged: each is answered from the first row with the number of the subentry.
ghost use Rattle.std.specs.Prelude.{◌≡◌};
ghost use Rattle.paper_index.specs.ByIndex.{heading_by_index, unit_by_index, passage_by_index};

use index_finding::finding::find_row;
use paper_questions::types::PartAnswer;
use questions_columns::answers::{heading_from_row, unit_from_row};
use questions_parts::answers::refused_part;
use questions_runs::answers::passage_from_row;

// The heading of a column, ten columns, and its pointer.
pub fn heading_by_index(
    entry: &[u8],
    index: &[u32],
    number: u32,
    section: u32,
    column: u32,
) -> PartAnswer
    ensures { result ≡ heading_by_index entry.now index.now number section column }
{
    let found = find_row(index, number);
    let refusal = found.number;
    if refusal != 0 {
        return refused_part(refusal);
    }
    let row = found.row;
    heading_from_row(entry, row, section, column)
}

// The unit of a column, ten columns, and the heading's pointer.
pub fn unit_by_index(
    entry: &[u8],
    index: &[u32],
    number: u32,
    section: u32,
    column: u32,
) -> PartAnswer
    ensures { result ≡ unit_by_index entry.now index.now number section column }
{
    let found = find_row(index, number);
    let refusal = found.number;
    if refusal != 0 {
        return refused_part(refusal);
    }
    let row = found.row;
    unit_from_row(entry, row, section, column)
}

// The passage of a subentry with a keyword and a pointer, whole records.
pub fn passage_by_index(
    entry: &[u8],
    index: &[u32],
    number: u32,
    keyword: [u8; 10],
    pointer: u8,
) -> PartAnswer
    ensures { result ≡ passage_by_index entry.now index.now number keyword pointer }
{
    let found = find_row(index, number);
    let refusal = found.number;
    if refusal != 0 {
        return refused_part(refusal);
    }
    let row = found.row;
    passage_from_row(entry, row, keyword, pointer)
}
