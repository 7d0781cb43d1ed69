// What is returned and stored of an answer for a code.
ghost use Rattle.std.specs.Prelude.{◌≡◌, ◌≤◌};
ghost use Rattle.exports_words.specs.Words.{answer_word};
ghost use Rattle.paper_codes.specs.Asked.{answer_in};
ghost use Rattle.exports_runs.specs.Codes.{code_word, length_stored, in_hand};

use entry_verdict::answer::answer_of;
use exports_parts::parts::put_number;
use paper_codes::types::{CodeAnswer, CodeIn};
use paper_entry::types::Answer;
use paper_record::types::RecordNo;

// Stores how long the run is, and returns the word.
pub fn put_code(a: CodeAnswer, long: &mut [u64; 1]) -> u64
    ensures value { result ≡ code_word a }
    ensures long_after { long.new ≡ length_stored long.old a }
{
    let answer = a.answer;
    let length = a.length;
    put_number(answer, length as u64, long)
}

// The answer of a passage in hand, its record cut to the room that a word has for it.
fn in_hand(x: CodeIn) -> Answer
    requires { x.column ≤ 255 }
    ensures result_value { answer_word result ≡ answer_word (answer_in 0 x) }
    ensures number_value { result.number ≡ x.number }
{
    let number = x.number;
    if number < 50 {
        return answer_of(number);
    }
    if 51 < number {
        return answer_of(number);
    }
    let row = (x.at % 16777216 + 1) % 16777216;
    let place = x.column;
    Answer {
        number,
        refusal: 0,
        record: RecordNo(row as u32),
        column: place as u8,
        ordinal: 0,
    }
}

// The same of a passage in hand.
pub fn put_code_in(x: CodeIn, long: &mut [u64; 1]) -> u64
    requires { x.column ≤ 255 }
    ensures value { result ≡ code_word (in_hand x) }
    ensures long_after { long.new ≡ length_stored long.old (in_hand x) }
{
    let length = x.length;
    let answer = in_hand(x);
    put_number(answer, length as u64, long)
}
