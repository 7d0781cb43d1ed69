// What the answer to a question stores in the numbers that the caller lends, and the place of a keyword.
ghost use Rattle.std.specs.Prelude.{◌≡◌};
ghost use Rattle.exports_words.specs.Words.{answer_word};
ghost use Rattle.exports_parts.specs.Questions.{number_stored, part_stored, value_answer, value_stored};
ghost use Rattle.exports_parts.specs.Questions.{keyword_place};

use exports_values::values::put_reading;
use exports_words::words::answer_word;
use paper_entry::types::Answer;
use paper_number::types::FieldRead;
use paper_questions::types::{PartAnswer, ValueAnswer};

// Stores a part that is answered, and returns the word.
pub fn put_part(p: PartAnswer, out: &mut [u64; 3]) -> u64
    ensures value { result ≡ answer_word p.answer }
    ensures out_after { out.new ≡ part_stored out.old p }
{
    let answer = p.answer;
    if answer.number != 0 {
        return answer_word(answer);
    }
    let first = p.first;
    let length = p.length;
    let pointer = p.pointer;
    *out = [first as u64, length as u64, pointer as u64];
    answer_word(answer)
}

// Stores one number that is answered, and returns the word.
pub fn put_number(answer: Answer, number: u64, out: &mut [u64; 1]) -> u64
    ensures value { result ≡ answer_word answer }
    ensures out_after { out.new ≡ number_stored out.old answer number }
{
    let refusal = answer.number;
    if refusal != 0 {
        return answer_word(answer);
    }
    *out = [number];
    answer_word(answer)
}

// Stores a value that is answered, and returns the word.
pub fn put_value(v: ValueAnswer, out: &mut [u64; 8]) -> u64
    ensures value { result ≡ answer_word (value_answer v) }
    ensures out_after { out.new ≡ value_stored out.old v }
{
    let answer = v.answer;
    let reading = v.value;
    let digits = v.digits;
    if answer.number == 0 {
        let field = FieldRead { reading, digits };
        return put_reading(field, out);
    }
    answer_word(answer)
}

// A keyword's ten bytes; blanks for any other slice.
pub fn keyword_place(keyword: &[u8]) -> [u8; 10]
    ensures { result ≡ keyword_place keyword.now }
{
    if keyword.len() != 10 {
        return [b' '; 10];
    }
    [
        keyword[0], keyword[1], keyword[2], keyword[3], keyword[4], keyword[5], keyword[6],
        keyword[7], keyword[8], keyword[9],
    ]
}
