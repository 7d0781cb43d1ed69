// Questions by an index, for host programs. What is answered is stored in a lent array; a refused question stores nothing.
ghost use Rattle.std.specs.Prelude.{◌≡◌};
ghost use Rattle.paper_index.specs.ByIndex.{value_by_index, heading_by_index, unit_by_index, passage_by_index};
ghost use Rattle.exports_words.specs.Words.{answer_word};
ghost use Rattle.exports_parts.specs.Questions.{value_answer, value_stored, part_stored, keyword_place};

use exports_parts::parts::{keyword_place, put_part, put_value};
use index_asking::asking::value_by_index;
use index_parts::parts::{heading_by_index, passage_by_index, unit_by_index};
use paper_record::types::LineNo;

// The value in a line and a column of COMMON (section 1) or DATA (section 2) of a subentry.
#[unsafe(no_mangle)]
pub extern "C" fn x4_index_value(
    entry: &[u8],
    index: &[u32],
    subentry: u32,
    section: u32,
    line: u32,
    column: u32,
    out: &mut [u64; 8],
) -> u64
    ensures value { result
        ≡ answer_word
        (value_answer
        (value_by_index entry.now index.now subentry section (record { 0 = line }) column)) }
    ensures out_after { out.new
        ≡ value_stored out.old
        (value_by_index entry.now index.now subentry section (record { 0 = line }) column) }
{
    let at = LineNo(line);
    let v = value_by_index(entry, index, subentry, section, at, column);
    put_value(v, out)
}

// Where the heading of a column stands in the entry, and its pointer.
#[unsafe(no_mangle)]
pub extern "C" fn x4_index_heading(
    entry: &[u8],
    index: &[u32],
    subentry: u32,
    section: u32,
    column: u32,
    out: &mut [u64; 3],
) -> u64
    ensures value { result
        ≡ answer_word (heading_by_index entry.now index.now subentry section column).answer }
    ensures out_after { out.new
        ≡ part_stored out.old
        (heading_by_index entry.now index.now subentry section column) }
{
    let p = heading_by_index(entry, index, subentry, section, column);
    put_part(p, out)
}

// Where the unit of a column stands, and the heading's pointer.
#[unsafe(no_mangle)]
pub extern "C" fn x4_index_unit(
    entry: &[u8],
    index: &[u32],
    subentry: u32,
    section: u32,
    column: u32,
    out: &mut [u64; 3],
) -> u64
    ensures value { result
        ≡ answer_word (unit_by_index entry.now index.now subentry section column).answer }
    ensures out_after { out.new
        ≡ part_stored out.old (unit_by_index entry.now index.now subentry section column) }
{
    let p = unit_by_index(entry, index, subentry, section, column);
    put_part(p, out)
}

// Where the passage with a keyword and a pointer stands.
#[unsafe(no_mangle)]
pub extern "C" fn x4_index_passage(
    entry: &[u8],
    index: &[u32],
    subentry: u32,
    keyword: &[u8],
    pointer: u8,
    out: &mut [u64; 3],
) -> u64
    ensures value { result
        ≡ answer_word
        (passage_by_index entry.now index.now subentry (keyword_place keyword.now) pointer
        ).answer }
    ensures out_after { out.new
        ≡ part_stored out.old
        (passage_by_index entry.now index.now subentry (keyword_place keyword.now) pointer) }
{
    let place = keyword_place(keyword);
    let p = passage_by_index(entry, index, subentry, place, pointer);
    put_part(p, out)
}
