// Code j of a passage under DECAY-DATA, asked by subentry, pointer and j.
ghost use Rattle.std.specs.Prelude.{◌≡◌, length};
ghost use Rattle.paper_codes.specs.Asked.{code_asked, code_stored};

use decay_code::answer::{answered, decay_data};
use decay_code::code::code_in;
use paper_codes::types::CodeAnswer;
use questions::ask::passage;
use questions_parts::handing::part_of;

// The code's run is stored in front of what is lent; a refused call stores nothing.
pub fn code(entry: &[u8], number: u32, pointer: u8, j: u32, out: &mut [u8]) -> CodeAnswer
    ensures value { result ≡ code_asked entry.now number pointer j (length out.old) }
    ensures out_after { out.new ≡ code_stored entry.now number pointer j out.old }
{
    let keyword = decay_data();
    let part = passage(entry, number, keyword, pointer);
    let answer = part.answer;
    let refusal = answer.number;
    if refusal != 0 {
        return CodeAnswer { answer, length: 0 };
    }
    let before = part.first / 81;
    let bytes = part_of(entry, part);
    let found = code_in(bytes, j, out);
    answered(before, found)
}
