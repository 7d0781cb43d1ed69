// The questions, for host programs. What is answered is stored in a lent array; a refused question stores nothing.
ghost use Rattle.std.specs.Prelude.{◌≡◌};
ghost use Rattle.paper_questions.specs.Ask.{value_asked, heading_asked, unit_asked, passage_asked};
ghost use Rattle.exports_words.specs.Words.{answer_word};
ghost use Rattle.exports_parts.specs.Questions.{value_answer, value_stored, part_stored, keyword_place};

use exports_parts::parts::{keyword_place, put_part, put_value};
use paper_record::types::LineNo;
use questions::ask::{heading, passage, unit, value};

// The value in a line and a column of COMMON (section 1) or DATA (section 2) of a subentry.
#[unsafe(no_mangle)]
pub extern "C" fn x4_value(
    entry: &[u8],
    subentry: u32,
    section: u32,
    line: u32,
    column: u32,
    out: &mut [u64; 8],
) -> u64
    ensures value { result
        ≡ answer_word (value_answer (value_asked entry.now subentry section (record { 0 = line }) column)) }
    ensures out_after { out.new
        ≡ value_stored out.old
        (value_asked entry.now subentry section (record { 0 = line }) column) }
{
    let at = LineNo(line);
    let v = value(entry, subentry, section, at, column);
    put_value(v, out)
}

// Where the heading of a column stands in the entry, and its pointer.
#[unsafe(no_mangle)]
pub extern "C" fn x4_heading(
    entry: &[u8],
    subentry: u32,
    section: u32,
    column: u32,
    out: &mut [u64; 3],
) -> u64
    ensures value { result ≡ answer_word (heading_asked entry.now subentry section column).answer }
    ensures out_after { out.new
        ≡ part_stored out.old (heading_asked entry.now subentry section column) }
{
    let p = heading(entry, subentry, section, column);
    put_part(p, out)
}

// Where the unit of a column stands, and the heading's pointer.
#[unsafe(no_mangle)]
pub extern "C" fn x4_unit(
    entry: &[u8],
    subentry: u32,
    section: u32,
    column: u32,
    out: &mut [u64; 3],
) -> u64
    ensures value { result ≡ answer_word (unit_asked entry.now subentry section column).answer }
    ensures out_after { out.new
        ≡ part_stored out.old (unit_asked entry.now subentry section column) }
{
    let p = unit(entry, subentry, section, column);
    put_part(p, out)
}

// Where the passage with a keyword and a pointer stands.
#[unsafe(no_mangle)]
pub extern "C" fn x4_passage(
    entry: &[u8],
    subentry: u32,
    keyword: &[u8],
    pointer: u8,
    out: &mut [u64; 3],
) -> u64
    ensures value { result
        ≡ answer_word
        (passage_asked entry.now subentry (keyword_place keyword.now) pointer).answer }
    ensures out_after { out.new
        ≡ part_stored out.old
        (passage_asked entry.now subentry (keyword_place keyword.now) pointer) }
{
    let place = keyword_place(keyword);
    let p = passage(entry, subentry, place, pointer);
    put_part(p, out)
}
