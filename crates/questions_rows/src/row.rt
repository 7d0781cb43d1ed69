// The verdict on an entry, and where one of its subentries stands.
ghost use Rattle.std.specs.Prelude.{◌≡◌};
ghost use Rattle.paper_questions.specs.Row.{Met};
ghost use Rattle.paper_questions.specs.Located.{locate as locateOf};

use entry::judge::judge;
use paper_questions::types::Located;
use questions_noted::row::empty_row;
use questions_system::row::row_of;

// The verdict on an entry, and the row of one of its subentries.
pub fn locate(entry: &[u8], number: u32) -> Located
    ensures value { result ≡ locateOf entry.now number }
    ensures met { Met result.row }
{
    let verdict = judge(entry);
    if verdict.refusal != 0 {
        let empty = empty_row(number);
        return Located {
            verdict,
            row: empty,
        };
    }
    let row = row_of(entry, number);
    Located { verdict, row }
}
