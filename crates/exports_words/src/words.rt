// The word that a call returns.
ghost use Rattle.std.specs.Prelude.{◌≡◌};
ghost use Rattle.exports_words.specs.Words.{answer_word};

use paper_entry::types::Answer;

pub fn answer_word(a: Answer) -> u64
    ensures { result ≡ answer_word a }
{
    let number = a.number;
    let refusal = a.refusal;
    let column = a.column;
    let at = a.record;
    let ordinal = a.ordinal;
    let row = (at.0 % 16777216) as u64;
    let whose = (ordinal % 65536) as u64;
    let place = (column as u64) + 256 * (row + 16777216 * whose);
    (number as u64) + 256 * ((refusal as u64) + 256 * place)
}
