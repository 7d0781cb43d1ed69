// The word of an answer and of a field, with which of the three it is.
ghost use Rattle.std.specs.Prelude.{◌≡◌};
ghost use Rattle.paper_entry.specs.Answer.{answer_of};
ghost use Rattle.paper_double.specs.Double.{doubled};
ghost use Rattle.exports_values.specs.Values.{reading_answer};
ghost use Rattle.exports_simple.specs.Doubles.{word_with, double_word, field_word, double_stored};

use entry_verdict::answer::answer_of;
use exports_simple::simple::{kind_of, put_double};
use exports_words::words::answer_word;
use paper_double::types::Simple;
use paper_double_asking::types::DoubleAnswer;
use paper_entry::types::Answer;
use paper_number::types::{FieldRead, Reading};

// The word of an answer, with which of the three it is and the digits written.
fn word_with(a: Answer, value: Simple, digits: u8) -> u64
    ensures { result ≡ word_with a value digits }
{
    let number = a.number;
    let refusal = a.refusal;
    let record = a.record;
    let column = a.column;
    let kind = kind_of(value) as u32;
    let ordinal = kind + 256 * digits as u32;
    answer_word(Answer {
        number,
        refusal,
        record,
        column,
        ordinal,
    })
}

// The number that a field's reading is refused by, 0 where it is not.
fn refusal_of(reading: Reading) -> u8
    ensures { answer_of result ≡ reading_answer reading }
{
    match reading {
        Reading::Blank => 0,
        Reading::Number(_) => 0,
        Reading::Refused(n) => n,
    }
}

// The word of a field, whose reading as one of the three is in hand.
pub fn field_word_of(said: FieldRead, value: Simple) -> u64
    requires { value ≡ doubled said.reading }
    ensures { result ≡ field_word said }
{
    let reading = said.reading;
    let digits = said.digits;
    let number = refusal_of(reading);
    let answer = answer_of(number);
    word_with(answer, value, digits)
}

// Stores the double of an answer where there is one; its word tells the rest.
pub fn put_answer(answered: DoubleAnswer, out: &mut [f64; 1]) -> u64
    ensures value { result ≡ double_word answered }
    ensures out_after { out.new ≡ double_stored out.old answered.value }
{
    let answer = answered.answer;
    let value = answered.value;
    let digits = answered.digits;
    put_double(value, out);
    word_with(answer, value, digits)
}
