// What a call about an entry answers.
ghost use Rattle.std.specs.Prelude.{◌≡◌};
ghost use Rattle.paper_entry.specs.Answer.{answer_of, answer_for};

use paper_entry::types::{Answer, Verdict};
use paper_record::types::RecordNo;

// A number with zeros beside it.
pub fn answer_of(number: u8) -> Answer
    ensures { result ≡ answer_of number }
{
    Answer {
        number,
        refusal: 0,
        record: RecordNo(0),
        column: 0,
        ordinal: 0,
    }
}

// A number with what stands beside it, by the verdict on the entry.
pub fn answer_for(v: Verdict, number: u8) -> Answer
    ensures { result ≡ answer_for v number }
{
    if number == 31 {
        return Answer {
            number: 31,
            refusal: v.refusal,
            record: v.record,
            column: v.column,
            ordinal: v.ordinal,
        };
    }
    answer_of(number)
}
