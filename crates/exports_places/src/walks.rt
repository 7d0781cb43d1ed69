// What the calls about a walk store in the numbers that the caller lends.
ghost use Rattle.std.specs.Prelude.{◌≡◌};
ghost use Rattle.exports_words.specs.Words.{answer_word};
ghost use Rattle.exports_places.specs.Walks.{walk_numbers, walk_stored, walk_in, place_numbers, given_answer, given_stored};

use entry_verdict::answer::answer_of;
use exports_values::values::put_reading;
use exports_words::words::answer_word;
use paper_record::types::{LineNo, RecordNo};
use paper_walk::types::{Given, Walk};

// Where a walk stands, as five numbers.
pub fn walk_numbers(w: Walk) -> [u32; 5]
    ensures { result ≡ walk_numbers w }
{
    let section = w.section;
    let line = w.line;
    [section.0, w.columns, w.lines, line.0, w.column]
}

// Stores where a walk stands that is made, and returns the word.
pub fn put_walk(w: Walk, out: &mut [u32; 5]) -> u64
    ensures value { result ≡ answer_word w.answer }
    ensures out_after { out.new ≡ walk_stored out.old w }
{
    let answer = w.answer;
    if answer.number != 0 {
        return answer_word(answer);
    }
    *out = walk_numbers(w);
    answer_word(answer)
}

// The walk that five numbers say.
pub fn walk_in(xs: [u32; 5]) -> Walk
    ensures { result ≡ walk_in xs }
{
    let answer = answer_of(0);
    let section = RecordNo(xs[0]);
    let line = LineNo(xs[3]);
    Walk {
        answer,
        section,
        columns: xs[1],
        lines: xs[2],
        line,
        column: xs[4],
    }
}

// Stores a place and its value, or that the walk is done, and returns the word.
pub fn put_given(given: Option<Given>, place: &mut [u64; 3], out: &mut [u64; 8]) -> u64
    ensures value { result ≡ answer_word (given_answer given) }
    ensures place_after { place.new ≡ place_numbers given }
    ensures out_after { out.new ≡ given_stored out.old given }
{
    match given {
        Some(
            Given {
                line,
                column,
                field,
            },
        ) => {
            *place = [1, u64::from(line.0), u64::from(column)];
            put_reading(field, out)
        }
        None => {
            *place = [0, 0, 0];
            0
        }
    }
}
