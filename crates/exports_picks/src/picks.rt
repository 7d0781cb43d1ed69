// What is returned and stored of a subentry that is picked, and of a merge.
ghost use Rattle.std.specs.Prelude.{◌≡◌};
ghost use Rattle.exports_picks.specs.Picks.{naming, of_entry, is_written, picked_word, picked_stored, merged_word, merged_stored};

use exports_words::words::answer_word;
use paper_entry::types::Answer;
use paper_revisions::types::{Merged, Picked};

// An answer, and which entry is refused in the place of the ordinal.
fn naming(a: Answer, which: u8) -> Answer
    ensures { result ≡ naming a which }
{
    let record = a.record;
    Answer {
        number: a.number,
        refusal: a.refusal,
        record,
        column: a.column,
        ordinal: which as u32,
    }
}

// The entry that a part lies in: 1 the held one, 2 the revision.
fn of_entry(revision: bool) -> u64
    ensures { result ≡ of_entry revision }
{
    if revision {
        return 2;
    }
    1
}

// Stores the part of a subentry that is handed out, and returns the word.
pub fn put_picked(p: Picked, part: &mut [u64; 3]) -> u64
    ensures value { result ≡ picked_word p }
    ensures part_after { part.new ≡ picked_stored part.old p }
{
    let answer = p.answer;
    let which = p.which;
    let named = naming(answer, which);
    if answer.number != 0 {
        return answer_word(named);
    }
    let entry = of_entry(p.revision);
    let first = p.first;
    let length = p.length;
    *part = [entry, first as u64, length as u64];
    answer_word(named)
}

// Whether bytes of the buffer are the merge's.
fn is_written(number: u8) -> bool
    ensures { result ≡ is_written number }
{
    if number == 0 {
        return true;
    }
    number == 63
}

// Stores how long the merge is, also where it is refused, and returns the word.
pub fn put_merged(m: Merged, long: &mut [u64; 1]) -> u64
    ensures value { result ≡ merged_word m }
    ensures long_after { long.new ≡ merged_stored long.old m }
{
    let answer = m.answer;
    let which = m.which;
    let length = m.length;
    let named = naming(answer, which);
    let written = is_written(answer.number);
    if written {
        *long = [length as u64];
        return answer_word(named);
    }
    answer_word(named)
}
