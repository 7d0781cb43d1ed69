// Values as doubles, for host programs. A double is stored in a lent place where there is one; the word tells which of the
// three it is.
ghost use Rattle.std.specs.Prelude.{◌≡◌};
ghost use Rattle.paper_double_asking.specs.Ask.{double_asked, double_by_index};
ghost use Rattle.exports_simple.specs.Doubles.{double_word, double_stored};

use double_asking::asking::double;
use double_rows::rows::double_by_index;
use exports_simple_words::words::put_answer;
use paper_record::types::LineNo;

// The value in a line and a column of COMMON (section 1) or DATA (section 2) of a subentry.
#[unsafe(no_mangle)]
pub extern "C" fn x4_double(
    entry: &[u8],
    subentry: u32,
    section: u32,
    line: u32,
    column: u32,
    value: &mut [f64; 1],
) -> u64
    ensures value { result ≡ double_word (double_asked entry.now subentry section (record { 0 = line }) column) }
    ensures value_after { value.new
        ≡ double_stored value.old
        (double_asked entry.now subentry section (record { 0 = line }) column).value }
{
    let at = LineNo(line);
    let answered = double(entry, subentry, section, at, column);
    put_answer(answered, value)
}

// The same by an index.
#[unsafe(no_mangle)]
pub extern "C" fn x4_index_double(
    entry: &[u8],
    index: &[u32],
    subentry: u32,
    section: u32,
    line: u32,
    column: u32,
    value: &mut [f64; 1],
) -> u64
    ensures value { result
        ≡ double_word
        (double_by_index entry.now index.now subentry section (record { 0 = line }) column) }
    ensures value_after { value.new
        ≡ double_stored value.old
        (double_by_index entry.now index.now subentry section (record { 0 = line }) column).value }
{
    let at = LineNo(line);
    let answered = double_by_index(entry, index, subentry, section, at, column);
    put_answer(answered, value)
}
