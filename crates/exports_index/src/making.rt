// Making an index and finding its rows, for host programs. A refused call stores nothing.
ghost use Rattle.std.specs.Prelude.{◌≡◌, length};
ghost use Rattle.paper_entry.specs.Answer.{answer_of};
ghost use Rattle.paper_index.specs.Making.{made, stored_index};
ghost use Rattle.paper_index.specs.ByIndex.{row_by_index};
ghost use Rattle.exports_words.specs.Words.{answer_word};
ghost use Rattle.exports_parts.specs.Questions.{number_stored};

use entry_verdict::answer::answer_of;
use exports_parts::parts::put_number;
use index_finding::finding::find_row;
use index_making::making::make_index;

// Stores the index of an entry in the front of the numbers that are lent, and how many rows it has.
#[unsafe(no_mangle)]
pub extern "C" fn x4_index(entry: &[u8], index: &mut [u32], rows: &mut [u64; 1]) -> u64
    ensures value { result ≡ answer_word (made entry.now (length index.old)).answer }
    ensures index_after { index.new ≡ stored_index entry.now index.old }
    ensures rows_after { rows.new
        ≡ number_stored rows.old (made entry.now (length index.old)).answer
        (made entry.now (length index.old)).rows }
{
    let made = make_index(entry, index);
    let answer = made.answer;
    let n = made.rows as u64;
    put_number(answer, n, rows)
}

// How many rows stand before the first with this number.
#[unsafe(no_mangle)]
pub extern "C" fn x4_index_row(index: &[u32], subentry: u32, before: &mut [u64; 1]) -> u64
    ensures value { result ≡ answer_word (answer_of (row_by_index index.now subentry).number) }
    ensures before_after { before.new
        ≡ number_stored before.old (answer_of (row_by_index index.now subentry).number)
        (row_by_index index.now subentry).before }
{
    let found = find_row(index, subentry);
    let number = found.number;
    let answer = answer_of(number);
    let n = found.before as u64;
    put_number(answer, n, before)
}
