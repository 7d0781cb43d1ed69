// The run of a code in the records of its passage.
ghost use Rattle.std.specs.Prelude.{◌≡◌, ◌+◌, ◌-◌, ◌*◌, ◌<◌, ◌≤◌, ◌^◌, length, take};
ghost use Rattle.paper_decay.specs.Records.{filled_to};
ghost use Rattle.paper_decay_run.specs.Overlay.{overlay};
ghost use Rattle.paper_decay_run.specs.Run.{field_behind, fields_in, run_piece, run_records};

use crate::texts::{Put, put_text};
use decay_records::records::filled_to;

// The text of a record from which the code goes on: without the blanks behind its last column that is filled.
fn put_filled(out: &mut [u8], at: usize, text: &[u8], place: u8) -> Put
    requires { (at + length text.now < 2 ^ 64) × (place ≤ 4) }
    ensures out_after { out.new
        ≡ overlay out.old at (run_piece place (take (filled_to text.now) text.now)) }
    ensures at_value { result.at ≡ at + length (run_piece place (take (filled_to text.now) text.now)) }
    ensures place_value { (result.place ≡ field_behind place (fields_in (take (filled_to text.now) text.now)))
        × (result.place ≤ 4) }
{
    let filled = filled_to(text);
    put_text(out, at, &text[0..filled], place)
}

// The code that begins in the record with the index `first` and closes in a column of the record `last`.
pub fn put_records(out: &mut [u8], entry: &[u8], first: usize, last: usize, column: usize) -> usize
    requires first_le_last { (first ≤ last) × ((last + 1) * 81 ≤ length entry.now) }
    requires le_column { (12 ≤ column) × (column ≤ 66) }
    ensures out_after { out.new
        ≡ overlay out.old 0 (run_records 0 entry.now first (last - first) column) }
    ensures value { result ≡ length (run_records 0 entry.now first (last - first) column) }
{
    let mut to = 0;
    let mut place = 0;
    for i in first..last {
        let from = i * 81 + 11;
        let past = from + 55;
        let put = put_filled(out, to, &entry[from..past], place);
        to = put.at;
        place = put.place;
    }
    let from = last * 81 + 11;
    let past = last * 81 + column;
    let put = put_text(out, to, &entry[from..past], place);
    put.at
}
