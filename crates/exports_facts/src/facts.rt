// A verdict and its reason, in a word and in arrays that the caller lends.
ghost use Rattle.std.specs.Prelude.{◌≡◌};
ghost use Rattle.exports_words.specs.Words.{answer_word, lent_after};
ghost use Rattle.exports_verdicts.specs.Verdicts.{verdict_answer, totals_numbers};
ghost use Rattle.exports_facts.specs.Facts.{facts_numbers};

use exports_verdicts::verdicts::put_verdict;
use paper_reasons::types::{Explained, Facts};

fn facts_numbers(facts: Facts) -> [u64; 3]
    ensures { result ≡ facts_numbers facts }
{
    match facts {
        Facts::Alone => [0, 0, 0],
        Facts::Count(announced, counted) => [1, announced, counted],
        Facts::Range(least, greatest) => [2, least, greatest],
        Facts::Previous(number) => [3, number as u64, 0],
        Facts::Equal(at, column) => [4, at.0 as u64, column as u64],
        Facts::Pointer(pointer) => [5, pointer as u64, 0],
        Facts::Expected => [6, 0, 0],
    }
}

// Stores the totals of an accepted entry, and of any the reason; returns the word of the verdict.
pub fn put_explained(
    e: Explained,
    totals: &mut [u64; 4],
    facts: &mut [u64; 3],
    characters: &mut [u8; 8],
) -> u64
    ensures value { result ≡ answer_word (verdict_answer e.verdict) }
    ensures totals_after { totals.new
        ≡ lent_after e.verdict.refusal totals.old (totals_numbers e.verdict.totals) }
    ensures facts_after { facts.new ≡ facts_numbers e.reason.facts }
    ensures characters_after { characters.new ≡ e.reason.characters }
{
    let v = e.verdict;
    let reason = e.reason;
    let said = reason.facts;
    let expected = reason.characters;
    *facts = facts_numbers(said);
    *characters = expected;
    put_verdict(v, totals)
}
