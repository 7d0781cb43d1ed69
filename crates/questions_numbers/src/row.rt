// Whether there is a row to answer from.
ghost use Rattle.std.specs.Prelude.{◌≡◌};
ghost use Rattle.paper_index.specs.Asked.{no_row};

use paper_entry::types::Verdict;
use paper_questions::types::Row;

// 31, or 32 where the row has no first record; else 0.
pub fn no_row(v: Verdict, row: Row) -> u8
    ensures { result ≡ no_row v row }
{
    if v.refusal != 0 {
        31
    } else if row.first.0 == 0 {
        32
    } else {
        0
    }
}
