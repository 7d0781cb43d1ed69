// An answer that names a part of the entry, or refuses one. Of a part it says the place.
ghost use Rattle.std.specs.Prelude.{◌≡◌};
ghost use Rattle.paper_entry.specs.Answer.{answer_of};
ghost use Rattle.paper_questions.specs.PartAnswers.{no_part, part_from};

use entry_verdict::answer::answer_of;
use paper_entry::types::Answer;
use paper_questions::types::PartAnswer;

pub fn no_part(answer: Answer) -> PartAnswer
    ensures { result ≡ no_part answer }
{
    PartAnswer {
        answer,
        first: 0,
        length: 0,
        pointer: b' ',
    }
}

// A refused part: zeros beside its number.
pub fn refused_part(number: u8) -> PartAnswer
    ensures { result ≡ no_part (answer_of number) }
{
    no_part(answer_of(number))
}

// So many bytes of the entry from a byte on, where it has them.
pub fn part_from(entry: &[u8], first: usize, length: usize, pointer: u8) -> PartAnswer
    ensures { result ≡ part_from entry.now (answer_of 0) first length pointer }
{
    let answered = answer_of(0);
    if entry.len() < length {
        return no_part(answered);
    }
    let room = entry.len() - length;
    if room < first {
        return no_part(answered);
    }
    PartAnswer {
        answer: answered,
        first,
        length,
        pointer,
    }
}
