// The archive of `exports_index` for C: the index. Each function has the name, the arguments and
// the promise of one there, and calls it.

#![tactic(auto)]

ghost use Rattle.std.specs.Prelude.{◌≡◌, length};
ghost use Rattle.paper_index.specs.ByIndex.{value_by_index, heading_by_index, unit_by_index, passage_by_index, row_by_index};
ghost use Rattle.exports_words.specs.Words.{answer_word};
ghost use Rattle.exports_parts.specs.Questions.{value_answer, value_stored, part_stored, keyword_place, number_stored};
ghost use Rattle.paper_entry.specs.Answer.{answer_of};
ghost use Rattle.paper_index.specs.Making.{made, stored_index};

// The value in a line and a column of COMMON (section 1) or DATA (section 2) of a subentry.
#[unsafe(no_mangle)]
pub extern "C" fn x4_index_value(
    entry: &[u8],
    index: &[u32],
    subentry: u32,
    section: u32,
    line: u32,
    column: u32,
    out: &mut [u64; 8],
) -> u64
    ensures value { result
        ≡ answer_word
        (value_answer
        (value_by_index entry.now index.now subentry section (record { 0 = line }) column)) }
    ensures out_after { out.new
        ≡ value_stored out.old
        (value_by_index entry.now index.now subentry section (record { 0 = line }) column) }
{
    exports_index::asking::x4_index_value(entry, index, subentry, section, line, column, out)
}

// Where the heading of a column stands in the entry, and its pointer.
#[unsafe(no_mangle)]
pub extern "C" fn x4_index_heading(
    entry: &[u8],
    index: &[u32],
    subentry: u32,
    section: u32,
    column: u32,
    out: &mut [u64; 3],
) -> u64
    ensures value { result
        ≡ answer_word (heading_by_index entry.now index.now subentry section column).answer }
    ensures out_after { out.new
        ≡ part_stored out.old
        (heading_by_index entry.now index.now subentry section column) }
{
    exports_index::asking::x4_index_heading(entry, index, subentry, section, column, out)
}

// Where the unit of a column stands, and the heading's pointer.
#[unsafe(no_mangle)]
pub extern "C" fn x4_index_unit(
    entry: &[u8],
    index: &[u32],
    subentry: u32,
    section: u32,
    column: u32,
    out: &mut [u64; 3],
) -> u64
    ensures value { result
        ≡ answer_word (unit_by_index entry.now index.now subentry section column).answer }
    ensures out_after { out.new
        ≡ part_stored out.old (unit_by_index entry.now index.now subentry section column) }
{
    exports_index::asking::x4_index_unit(entry, index, subentry, section, column, out)
}

// Where the passage with a keyword and a pointer stands.
#[unsafe(no_mangle)]
pub extern "C" fn x4_index_passage(
    entry: &[u8],
    index: &[u32],
    subentry: u32,
    keyword: &[u8],
    pointer: u8,
    out: &mut [u64; 3],
) -> u64
    ensures value { result
        ≡ answer_word
        (passage_by_index entry.now index.now subentry (keyword_place keyword.now) pointer
        ).answer }
    ensures out_after { out.new
        ≡ part_stored out.old
        (passage_by_index entry.now index.now subentry (keyword_place keyword.now) pointer) }
{
    exports_index::asking::x4_index_passage(entry, index, subentry, keyword, pointer, out)
}

// Stores the index of an entry in the front of the numbers that are lent, and how many rows it has.
#[unsafe(no_mangle)]
pub extern "C" fn x4_index(entry: &[u8], index: &mut [u32], rows: &mut [u64; 1]) -> u64
    ensures value { result ≡ answer_word (made entry.now (length index.old)).answer }
    ensures index_after { index.new ≡ stored_index entry.now index.old }
    ensures rows_after { rows.new
        ≡ number_stored rows.old (made entry.now (length index.old)).answer
        (made entry.now (length index.old)).rows }
{
    exports_index::making::x4_index(entry, index, rows)
}

// How many rows stand before the first with this number.
#[unsafe(no_mangle)]
pub extern "C" fn x4_index_row(index: &[u32], subentry: u32, before: &mut [u64; 1]) -> u64
    ensures value { result ≡ answer_word (answer_of (row_by_index index.now subentry).number) }
    ensures before_after { before.new
        ≡ number_stored before.old (answer_of (row_by_index index.now subentry).number)
        (row_by_index index.now subentry).before }
{
    exports_index::making::x4_index_row(index, subentry, before)
}
