// A verdict, in a word and in four numbers that the caller lends.
ghost use Rattle.std.specs.Prelude.{◌≡◌};
ghost use Rattle.exports_words.specs.Words.{answer_word, lent_after};
ghost use Rattle.exports_verdicts.specs.Verdicts.{verdict_answer, totals_numbers};

use exports_words::words::answer_word;
use paper_entry::types::{Answer, Verdict};

// Stores the totals of an accepted entry, and returns the word.
pub fn put_verdict(v: Verdict, out: &mut [u64; 4]) -> u64
    ensures value { result ≡ answer_word (verdict_answer v) }
    ensures out_after { out.new ≡ lent_after v.refusal out.old (totals_numbers v.totals) }
{
    let refusal = v.refusal;
    let record = v.record;
    let column = v.column;
    let ordinal = v.ordinal;
    let totals = v.totals;
    if refusal != 0 {
        return answer_word(Answer {
            number: refusal,
            refusal,
            record,
            column,
            ordinal,
        });
    }
    let subentries = totals.subentries;
    let keywords = totals.keywords;
    let lines = totals.lines;
    let numbers = totals.numbers;
    *out = [
        subentries as u64,
        keywords as u64,
        lines as u64,
        numbers as u64,
    ];
    0
}
