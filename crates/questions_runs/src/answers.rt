// The answer about a passage from a row, whatever bytes and numbers these are: a run of BIB's text records.
ghost use Rattle.std.specs.Prelude.{◌≡◌};
ghost use Rattle.paper_index.specs.PassageAnswers.{passage_from_row};

use paper_questions::types::{PartAnswer, Row};
use paper_record::types::RecordNo;
use questions_held::held::{passage_refusal, texts_held};
use questions_parts::answers::{part_from, refused_part};
use questions_passages::passage::{begun_at, ended_at};
use questions_places::place::first_byte;
use questions_reads::reads::read_section;
use record_names::identifier::BIB;

// The passage with a keyword and a pointer in the row's BIB.
pub fn passage_from_row(entry: &[u8], row: Row, keyword: [u8; 10], pointer: u8) -> PartAnswer
    ensures { result ≡ passage_from_row entry.now row keyword pointer }
{
    let bib = row.bib;
    let read = read_section(entry, row, bib, BIB);
    let number = read.number;
    if number != 0 {
        return refused_part(number);
    }
    let counted = read.n2;
    let held = texts_held(entry, bib, counted);
    let from = begun_at(entry, bib, keyword, pointer, held);
    let past = ended_at(entry, bib, from, held);
    let refusal = passage_refusal(counted, held, from, past);
    if refusal != 0 {
        return refused_part(refusal);
    }
    let number_there = bib.0 + (from + 1);
    let at = RecordNo(number_there);
    let first = first_byte(at);
    let records = past - from;
    let bytes = records as usize * 81;
    part_from(entry, first, bytes, pointer)
}
