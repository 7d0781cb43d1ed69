// Numbers of a code's run: by their canonical characters; what is no number is kept.
ghost use Rattle.std.specs.Prelude.{◌≡◌, map, ◌+◌, ◌<◌, ◌≤◌, ◌^◌, length};
ghost use Rattle.paper_number.specs.Value.{value_of};
ghost use Rattle.paper_canonical.specs.Closed.{canonical_text, canonical_field};
ghost use Rattle.paper_decay.specs.Code.{split};
ghost use Rattle.paper_decay.specs.Fields.{cut_at};
ghost use Rattle.paper_decay_run.specs.Overlay.{overlay};
ghost use Rattle.paper_decay_run.specs.Run.{run_number};

use crate::kept::put_kept;
use canonical::write::write_columns;
use decay_words::words::{find_byte, lead_of};
use number_reading::read::read_narrow;
use paper_number::types::{Decimal, Reading};

// The canonical field of a value.
fn canonical_field(v: Decimal) -> [u8; 11]
    requires { length (canonical_text (value_of v.negative v.coefficient v.power)) ≤ 11 }
    ensures { result ≡ canonical_field 11 (value_of v.negative v.coefficient v.power) }
{
    let mut field = [b' '; 11];
    let _ = write_columns(v.negative, v.coefficient, v.power, &mut field);
    field
}

// The canonical characters of a value: its canonical field without the blanks in front.
fn put_value(out: &mut [u8], at: usize, v: Decimal) -> usize
    requires power_len_bound { length (canonical_text (value_of v.negative v.coefficient v.power)) ≤ 11 }
    requires power_bound { at + length (canonical_text (value_of v.negative v.coefficient v.power)) < 2 ^ 64 }
    ensures out_after { out.new
        ≡ overlay out.old at (canonical_text (value_of v.negative v.coefficient v.power)) }
    ensures value { result ≡ at + length (canonical_text (value_of v.negative v.coefficient v.power)) }
{
    let field = canonical_field(v);
    let first = lead_of(&field);
    put_kept(out, at, &field[first..11])
}

// A number of at most eleven characters.
pub fn put_number(out: &mut [u8], at: usize, text: &[u8]) -> usize
    requires { at + length text.now < 2 ^ 64 }
    ensures out_after { out.new ≡ overlay out.old at (run_number text.now) }
    ensures value { result ≡ at + length (run_number text.now) }
{
    if text.len() > 11 {
        return put_kept(out, at, text);
    }
    let r = read_narrow(text);
    match r {
        Reading::Blank => put_kept(out, at, text),
        Reading::Number(v) => put_value(out, at, v),
        Reading::Refused(n) => put_kept(out, at, text),
    }
}

// Numbers between slashes.
pub fn put_energies(out: &mut [u8], at: usize, text: &[u8]) -> usize
    requires { at + length text.now < 2 ^ 64 }
    ensures out_after { out.new
        ≡ overlay out.old at (split 47 (map run_number (cut_at 47 text.now))) }
    ensures value { result ≡ at + length (split 47 (map run_number (cut_at 47 text.now))) }
{
    let n = text.len();
    let mut to = at;
    let mut i = 0;
    loop {
        let past = find_byte(text, i, b'/');
        to = put_number(out, to, &text[i..past]);
        if past == n {
            return to;
        }
        let next = past + 1;
        to = put_kept(out, to, &text[past..next]);
        i = next;
    }
}
