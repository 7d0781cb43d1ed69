// A row of an index, stored as five numbers.
ghost use Rattle.std.specs.Prelude.{◌≡◌, ◌+◌, ◌*◌, ◌≤◌, length};
ghost use Rattle.std.proofs.Math.Seq.{paste};
ghost use Rattle.paper_index.specs.Rows.{row_numbers};

use paper_questions::types::Row;

// The row that has so many before it; every other number stays.
pub fn put_row(index: &mut [u32], before: usize, row: Row)
    requires { before * 5 + 5 ≤ length index.old }
    ensures { index.new ≡ paste index.old (before * 5) (row_numbers row) 5 }
{
    let at = before * 5;
    index[at] = row.number;
    index[at + 1] = row.first.0;
    index[at + 2] = row.bib.0;
    index[at + 3] = row.common.0;
    index[at + 4] = row.data.0;
}
