// A record of the copy: its number fields made canonical, every other byte as it is.
ghost use Rattle.std.specs.Prelude.{◌≡◌, ◌+◌, ◌≤◌, length, drop};
ghost use Rattle.std.proofs.Math.Seq.{paste};
ghost use Rattle.paper_copy.specs.Replaced.{replaced, mask};
ghost use Rattle.paper_record.specs.Columns.{Whole};
ghost use Rattle.rules_flags.specs.Lent.{WholeRecords};
ghost use Rattle.paper_copy.specs.CopyField.{number_in, copy_field};

use columns::fields::field;
use copy_fields::fields::put_field;
use copy_numbers::fields::is_number_field;
use paper_rules::types::Track;
use rules_roles::roles::is_value;

// The six fields; `table` are the heading records of the table in hand.
fn copy_fields<'a>(out: &mut [u8], at: usize, t: Track, table: &'a [u8], role: usize, rec: &'a [u8])
    requires whole_records { WholeRecords table.now }
    requires at_in_bounds { (at + 66 ≤ length out.old) × Whole rec.now }
    ensures { out.new
        ≡ paste out.old at
        (replaced copy_field (mask (number_in table.now t role) 0 6) rec.now) 66 }
{
    for k in 0..6 {
        let column = k * 11;
        let f = field(rec, column);
        let place = at + column;
        let number = is_number_field(t, table, role, k);
        put_field(out, place, number, f);
    }
}

// Columns as they are: n of them, behind the first `from`.
pub fn copy_columns(out: &mut [u8], at: usize, rec: &[u8], from: usize, n: usize)
    requires { (at + n ≤ length out.old) × (from + n ≤ length rec.now) }
    ensures { out.new ≡ paste out.old at (drop from rec.now) n }
{
    for i in 0..n {
        out[at + i] = rec[from + i];
    }
}

// A record with its role, in its place. Only a value record has number fields.
pub fn copy_record<'a>(
    out: &mut [u8],
    at: usize,
    t: Track,
    table: &'a [u8],
    role: usize,
    rec: &'a [u8],
)
    requires whole_records { WholeRecords table.now }
    requires at_in_bounds { (at + 81 ≤ length out.old) × Whole rec.now }
    ensures { out.new
        ≡ paste out.old at
        (replaced copy_field (mask (number_in table.now t role) 0 6) rec.now) 81 }
{
    if !is_value(role) {
        copy_columns(out, at, rec, 0, 81);
        return;
    }
    copy_fields(out, at, t, table, role, rec);
    let rest = at + 66;
    copy_columns(out, rest, rec, 66, 15);
}
