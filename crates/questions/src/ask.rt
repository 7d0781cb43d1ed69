// The questions: value, heading, unit, passage. Each judges the entry, finds the subentry's row and answers from it. An
// answer says its number; of a part it says the place, and a second call hands the part itself out of the caller's entry.
ghost use Rattle.std.specs.Prelude.{◌≡◌};
ghost use Rattle.laws.specs.Part.{Behind};
ghost use Rattle.paper_questions.specs.ValueAnswers.{value_said};
ghost use Rattle.paper_questions.specs.PartAnswers.{bytes_in};
ghost use Rattle.paper_questions.specs.Ask.{value_asked, heading_asked, unit_asked, passage_asked};

use entry_verdict::answer::answer_for;
use paper_number::types::Reading;
use paper_questions::types::{PartAnswer, ValueAnswer};
use paper_record::types::LineNo;
use questions_columns::answers::{heading_from_row, unit_from_row};
use questions_numbers::row::no_row;
use questions_parts::answers::no_part;
use questions_parts::handing::part_of;
use questions_rows::row::locate;
use questions_runs::answers::passage_from_row;
use questions_values::answers::value_from_row;

// The value in a line and a column of COMMON (section 1) or DATA (section 2) of a subentry.
pub fn value(entry: &[u8], number: u32, section: u32, line: LineNo, column: u32) -> ValueAnswer
    ensures value { result ≡ value_asked entry.now number section line column }
    ensures result_value { value_said result ≡ value_said (value_asked entry.now number section line column) }
{
    let found = locate(entry, number);
    let v = found.verdict;
    let row = found.row;
    let refusal = no_row(v, row);
    if refusal != 0 {
        let refused = answer_for(v, refusal);
        return ValueAnswer {
            answer: refused,
            value: Reading::Blank,
            digits: 0,
        };
    }
    value_from_row(entry, row, section, line, column)
}

// The heading of a column, ten columns, and its pointer.
pub fn heading(entry: &[u8], number: u32, section: u32, column: u32) -> PartAnswer
    ensures { result ≡ heading_asked entry.now number section column }
{
    let found = locate(entry, number);
    let v = found.verdict;
    let row = found.row;
    let refusal = no_row(v, row);
    if refusal != 0 {
        let refused = answer_for(v, refusal);
        return no_part(refused);
    }
    heading_from_row(entry, row, section, column)
}

// The unit of a column, ten columns, and the heading's pointer.
pub fn unit(entry: &[u8], number: u32, section: u32, column: u32) -> PartAnswer
    ensures { result ≡ unit_asked entry.now number section column }
{
    let found = locate(entry, number);
    let v = found.verdict;
    let row = found.row;
    let refusal = no_row(v, row);
    if refusal != 0 {
        let refused = answer_for(v, refusal);
        return no_part(refused);
    }
    unit_from_row(entry, row, section, column)
}

// The passage of a subentry with a keyword and a pointer, whole records.
pub fn passage(entry: &[u8], number: u32, keyword: [u8; 10], pointer: u8) -> PartAnswer
    ensures { result ≡ passage_asked entry.now number keyword pointer }
{
    let found = locate(entry, number);
    let v = found.verdict;
    let row = found.row;
    let refusal = no_row(v, row);
    if refusal != 0 {
        let refused = answer_for(v, refusal);
        return no_part(refused);
    }
    passage_from_row(entry, row, keyword, pointer)
}

// The parts themselves, each in its place in the caller's entry; a refused one is empty.
pub fn heading_part<'a>(entry: &'a [u8], number: u32, section: u32, column: u32) -> &'a [u8]
    ensures behind { Behind entry.entry.ref_ptr result.ref_ptr
        (heading_asked entry.now number section column).first }
    ensures result_value { result.now ≡ bytes_in entry.now (heading_asked entry.now number section column) }
{
    let part = heading(entry, number, section, column);
    part_of(entry, part)
}

pub fn unit_part<'a>(entry: &'a [u8], number: u32, section: u32, column: u32) -> &'a [u8]
    ensures behind { Behind entry.entry.ref_ptr result.ref_ptr
        (unit_asked entry.now number section column).first }
    ensures result_value { result.now ≡ bytes_in entry.now (unit_asked entry.now number section column) }
{
    let part = unit(entry, number, section, column);
    part_of(entry, part)
}

pub fn passage_part<'a>(entry: &'a [u8], number: u32, keyword: [u8; 10], pointer: u8) -> &'a [u8]
    ensures behind { Behind entry.entry.ref_ptr result.ref_ptr
        (passage_asked entry.now number keyword pointer).first }
    ensures result_value { result.now ≡ bytes_in entry.now (passage_asked entry.now number keyword pointer) }
{
    let part = passage(entry, number, keyword, pointer);
    part_of(entry, part)
}
