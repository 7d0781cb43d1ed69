// A part that an answer names, out of the caller's entry.
ghost use Rattle.std.specs.Prelude.{◌≡◌, ◌+◌};
ghost use Rattle.laws.specs.Part.{Behind};
ghost use Rattle.paper_questions.specs.PartAnswers.{Lies, bytes_in};

use paper_questions::types::PartAnswer;

// The part itself.
pub fn part_of<'a>(entry: &'a [u8], part: PartAnswer) -> &'a [u8]
    requires { Lies entry.now part }
    ensures behind { Behind entry.entry.ref_ptr result.ref_ptr part.first }
    ensures result_value { result.now ≡ bytes_in entry.now part }
{
    let first = part.first;
    let past = first + part.length;
    &entry[first..past]
}
