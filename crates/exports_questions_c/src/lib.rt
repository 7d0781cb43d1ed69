// The archive of `exports_questions` for C: questions and copies. Each function has the name, the arguments and
// the promise of one there, and calls it.

#![tactic(auto)]

ghost use Rattle.std.specs.Prelude.{◌≡◌, length};
ghost use Rattle.paper_questions.specs.Ask.{value_asked, heading_asked, unit_asked, passage_asked};
ghost use Rattle.exports_words.specs.Words.{answer_word};
ghost use Rattle.exports_parts.specs.Questions.{value_answer, value_stored, part_stored, keyword_place};
ghost use Rattle.paper_copy.specs.Call.{copied, stored_copy};

// The value in a line and a column of COMMON (section 1) or DATA (section 2) of a subentry.
#[unsafe(no_mangle)]
pub extern "C" fn x4_value(
    entry: &[u8],
    subentry: u32,
    section: u32,
    line: u32,
    column: u32,
    out: &mut [u64; 8],
) -> u64
    ensures value { result
        ≡ answer_word (value_answer (value_asked entry.now subentry section (record { 0 = line }) column)) }
    ensures out_after { out.new
        ≡ value_stored out.old
        (value_asked entry.now subentry section (record { 0 = line }) column) }
{
    exports_questions::asking::x4_value(entry, subentry, section, line, column, out)
}

// Where the heading of a column stands in the entry, and its pointer.
#[unsafe(no_mangle)]
pub extern "C" fn x4_heading(
    entry: &[u8],
    subentry: u32,
    section: u32,
    column: u32,
    out: &mut [u64; 3],
) -> u64
    ensures value { result ≡ answer_word (heading_asked entry.now subentry section column).answer }
    ensures out_after { out.new
        ≡ part_stored out.old (heading_asked entry.now subentry section column) }
{
    exports_questions::asking::x4_heading(entry, subentry, section, column, out)
}

// Where the unit of a column stands, and the heading's pointer.
#[unsafe(no_mangle)]
pub extern "C" fn x4_unit(
    entry: &[u8],
    subentry: u32,
    section: u32,
    column: u32,
    out: &mut [u64; 3],
) -> u64
    ensures value { result ≡ answer_word (unit_asked entry.now subentry section column).answer }
    ensures out_after { out.new
        ≡ part_stored out.old (unit_asked entry.now subentry section column) }
{
    exports_questions::asking::x4_unit(entry, subentry, section, column, out)
}

// Where the passage with a keyword and a pointer stands.
#[unsafe(no_mangle)]
pub extern "C" fn x4_passage(
    entry: &[u8],
    subentry: u32,
    keyword: &[u8],
    pointer: u8,
    out: &mut [u64; 3],
) -> u64
    ensures value { result
        ≡ answer_word
        (passage_asked entry.now subentry (keyword_place keyword.now) pointer).answer }
    ensures out_after { out.new
        ≡ part_stored out.old
        (passage_asked entry.now subentry (keyword_place keyword.now) pointer) }
{
    exports_questions::asking::x4_passage(entry, subentry, keyword, pointer, out)
}

// Stores the copy of an entry in a buffer that may be longer: 0 done, else the word of refusal 31 or 37.
#[unsafe(no_mangle)]
pub extern "C" fn x4_copy(entry: &[u8], out: &mut [u8]) -> u64
    ensures value { result ≡ answer_word (copied entry.now (length out.old)) }
    ensures out_after { out.new ≡ stored_copy entry.now out.old }
{
    exports_questions::copying::x4_copy(entry, out)
}
