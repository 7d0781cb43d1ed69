// A field as its canonical one, stored in a place of a buffer: eleven columns of an entry, seven of a line. The width is the
// field's.
ghost use Rattle.std.specs.Prelude.{◌≡◌, ◌+◌, ◌≤◌, length, take, drop};
ghost use Rattle.std.proofs.Math.Seq.{paste};
ghost use Rattle.paper_number.specs.Value.{value_of};
ghost use Rattle.paper_canonical.specs.Writing.{stored_field};
ghost use Rattle.paper_canonical.specs.Replacing.{canonical};

use canonical::write::write_columns;
use number_reading::read::read_narrow;
use paper_number::types::{Decimal, Reading};

// Bytes as they are.
pub fn put_plain(out: &mut [u8], at: usize, field: &[u8])
    requires { at + length field.now ≤ length out.old }
    ensures { out.new ≡ paste out.old at field.now (length field.now) }
{
    for i in 0..field.len() {
        out[at + i] = field[i];
    }
}

// The canonical field of a value in n columns; where there is none, they stay.
fn put_number(out: &mut [u8], at: usize, n: usize, v: Decimal)
    requires { (n ≤ 11) × (at + n ≤ length out.old) }
    ensures { out.new
        ≡ paste out.old at
        (stored_field (take n (drop at out.old)) (value_of v.negative v.coefficient v.power)) n }
{
    let past = at + n;
    let _ = write_columns(v.negative, v.coefficient, v.power, &mut out[at..past]);
}

// A number becomes its canonical field of as many columns; what is no number stays.
pub fn put_canonical(out: &mut [u8], at: usize, field: &[u8])
    requires { (length field.now ≤ 11) × (at + length field.now ≤ length out.old) }
    ensures { out.new
        ≡ paste out.old at (canonical field.now) (length field.now) }
{
    let r = read_narrow(field);
    match r {
        Reading::Blank => put_plain(out, at, field),
        Reading::Number(v) => put_number(out, at, field.len(), v),
        Reading::Refused(n) => put_plain(out, at, field),
    }
}
