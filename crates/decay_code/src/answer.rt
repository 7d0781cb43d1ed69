// The answer about a code of an entry, from what the code of its passage comes to.
ghost use Rattle.std.specs.Prelude.{◌≡◌, ◌+◌, ◌≤◌};
ghost use Rattle.paper_record.specs.Text.{within};
ghost use Rattle.paper_codes.specs.Asked.{answered, DECAY-DATA};

use paper_codes::types::{CodeAnswer, CodeIn};
use paper_entry::types::Answer;
use paper_record::types::RecordNo;

// The keyword place of the passages that hold codes.
pub fn decay_data() -> [u8; 10]
    ensures { result ≡ DECAY-DATA }
{
    [b'D', b'E', b'C', b'A', b'Y', b'-', b'D', b'A', b'T', b'A']
}

// Whether a record and a column stand beside the number.
fn is_placed(number: u8) -> bool
    ensures { result ≡ within 50 51 number }
{
    if number < 50 {
        return false;
    }
    number <= 51
}

// The answer in an entry with so many records before the passage.
pub fn answered(before: usize, x: CodeIn) -> CodeAnswer
    requires { (before + x.at + 1 ≤ 4294967295) × (x.column ≤ 255) }
    ensures { result ≡ answered before x }
{
    let number = x.number;
    let length = x.length;
    if is_placed(number) {
        let at = before + x.at + 1;
        let counted = at as u32;
        let record = RecordNo(counted);
        let column = x.column as u8;
        let answer = Answer {
            number,
            refusal: 0,
            record,
            column,
            ordinal: 0,
        };
        return CodeAnswer { answer, length };
    }
    let none = RecordNo(0);
    let answer = Answer {
        number,
        refusal: 0,
        record: none,
        column: 0,
        ordinal: 0,
    };
    CodeAnswer { answer, length }
}
