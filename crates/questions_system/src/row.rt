// The row of a subentry in an accepted entry: only its system records are read.
ghost use Rattle.std.specs.Prelude.{◌≡◌};
ghost use Rattle.paper_entry.specs.Judging.{Accepted};
ghost use Rattle.paper_questions.specs.Row.{Met};
ghost use Rattle.paper_questions.specs.Located.{row_of};

use crate::system::system_at;
use paper_questions::types::Row;
use paper_record::types::RecordNo;
use questions_noted::row::{empty_row, noted_in};
use record_names::identifier::Names;

// The row of a subentry in an accepted entry.
pub fn row_of(entry: &[u8], number: u32) -> Row
    requires { Accepted entry.now }
    ensures value { result ≡ row_of entry.now number }
    ensures met { Met result }
{
    let n = (entry.len() / 81) as u32;
    let names = Names::new();
    let mut hand = 0;
    let mut row = empty_row(number);
    let mut i = 0;
    // A `for` goes one record on: here each record says how many more are passed over.
    while i < n {
        let at = RecordNo(i + 1);
        let found = system_at(entry, &names, at, hand);
        hand = found.hand;
        row = noted_in(row, hand, found.identifier, at);
        i = i + 1 + found.inside;
    }
    row
}
