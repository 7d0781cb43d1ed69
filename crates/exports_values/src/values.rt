// What a number field says, and how many digits are written in it, in eight numbers that the caller lends.
ghost use Rattle.std.specs.Prelude.{◌≡◌};
ghost use Rattle.exports_words.specs.Words.{answer_word};
ghost use Rattle.exports_values.specs.Values.{bit, twos, value_numbers, reading_answer, reading_stored};

use entry_verdict::answer::answer_of;
use exports_words::words::answer_word;
use paper_number::types::{Decimal, FieldRead, Reading};

fn bit(b: bool) -> u64
    ensures { result ≡ bit b }
{
    if b { 1 } else { 0 }
}

// A power of ten in two's complement: -1 is 2^64 - 1.
fn twos(power: i32) -> u64
    ensures { result ≡ twos power }
{
    let p = power as i64;
    if p < 0 {
        let below = -1 - p;
        return 18446744073709551615 - (below as u64);
    }
    p as u64
}

fn value_numbers(v: Decimal, digits: u8) -> [u64; 8]
    ensures { result ≡ value_numbers v digits }
{
    let coefficient = v.coefficient;
    let power = v.power;
    let negative = v.negative;
    let sign = bit(negative);
    let raised = twos(power);
    [1, sign, coefficient, raised, digits as u64, 0, 0, 0]
}

// Stores a blank or a number, and returns the word.
pub fn put_reading(field: FieldRead, out: &mut [u64; 8]) -> u64
    ensures value { result ≡ answer_word (reading_answer field.reading) }
    ensures out_after { out.new ≡ reading_stored out.old field }
{
    let said = field.reading;
    let digits = field.digits;
    match said {
        Reading::Blank => {
            *out = [0; 8];
            0
        }
        Reading::Number(v) => {
            *out = value_numbers(v, digits);
            0
        }
        Reading::Refused(n) => answer_word(answer_of(n)),
    }
}
