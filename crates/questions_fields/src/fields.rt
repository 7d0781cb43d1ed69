// The answer about a value, from the field at its place, whatever the bytes of the entry are.
ghost use Rattle.std.specs.Prelude.{◌≡◌, ◌≤◌, not, [], ◌∷◌};
ghost use Rattle.paper_number.specs.Digits.{field_read};
ghost use Rattle.paper_entry.specs.Answer.{refusal, first_of};
ghost use Rattle.paper_questions.specs.Place.{field_of};
ghost use Rattle.paper_index.specs.Reads.{good_reading, good_value};
ghost use Rattle.paper_index.specs.TableAnswers.{value_beside};
ghost use Rattle.paper_index.specs.ByIndex.{refused_value};

use entry_verdict::answer::answer_of;
use number_reading::read::read_digits;
use paper_number::types::Reading;
use paper_questions::types::ValueAnswer;
use paper_record::types::Place;
use questions_numbers::numbers::in_entry;
use questions_places::place::{COMMON_SECTION, field_of};

// A refused value is blank beside its number.
pub fn refused_value(number: u8) -> ValueAnswer
    ensures { result ≡ refused_value number }
{
    ValueAnswer {
        answer: answer_of(number),
        value: Reading::Blank,
        digits: 0,
    }
}

// Whether the field of a value is in form: in DATA it may be blank.
fn good_reading(section: u32, reading: Reading) -> bool
    ensures { result ≡ good_reading section reading }
{
    match reading {
        Reading::Blank => section != COMMON_SECTION,
        Reading::Number(_) => true,
        Reading::Refused(_) => false,
    }
}

// The value at its place, or 39.
pub fn value_at(entry: &[u8], section: u32, place: Place) -> ValueAnswer
    requires { place.field ≤ 5 }
    ensures { result ≡ value_beside (first_of (refusal 39 (not (good_value entry.now section place
        (field_read (field_of entry.now place)).reading)) ∷ []))
        (field_read (field_of entry.now place)) }
{
    let at = place.at;
    if !in_entry(entry, at) {
        return refused_value(39);
    }
    let f = field_of(entry, place);
    let read = read_digits(f);
    let value = read.reading;
    let digits = read.digits;
    if !good_reading(section, value) {
        return refused_value(39);
    }
    let answer = answer_of(0);
    ValueAnswer {
        answer,
        value,
        digits,
    }
}
