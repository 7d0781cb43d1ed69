// A field of the copy, stored in the place that it has in the entry.
ghost use Rattle.std.specs.Prelude.{◌≡◌, ◌+◌, ◌≤◌, length};
ghost use Rattle.std.proofs.Math.Seq.{paste};
ghost use Rattle.paper_copy.specs.CopyField.{copy_field};

use canonical_fields::fields::{put_canonical, put_plain};

// A field as the copy has it.
pub fn put_field(out: &mut [u8], at: usize, number: bool, f: [u8; 11])
    requires { at + 11 ≤ length out.old }
    ensures { out.new ≡ paste out.old at (copy_field number f) 11 }
{
    if number {
        put_canonical(out, at, &f);
    } else {
        put_plain(out, at, &f);
    }
}
