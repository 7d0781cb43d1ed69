// Parts of an entry, stored in a place of the buffer.
ghost use Rattle.std.specs.Prelude.{◌≡◌, ◌+◌, ◌-◌, ◌*◌, ◌≤◌, length, take, drop};
ghost use Rattle.std.proofs.Math.Seq.{paste};
ghost use Rattle.paper_revisions.specs.Extents.{bytes_of};
ghost use Rattle.paper_revisions.specs.Taken.{Lies};

use canonical_fields::fields::put_plain;
use paper_revisions::types::Extent;

// The n bytes of an entry behind its first `from`.
pub fn put_part(out: &mut [u8], at: usize, entry: &[u8], from: usize, n: usize)
    requires { (at + n ≤ length out.old) × (from + n ≤ length entry.now) }
    ensures { out.new ≡ paste out.old at (take n (drop from entry.now)) n }
{
    let past = from + n;
    put_plain(out, at, &entry[from..past]);
}

// These records of an entry; hands back how many bytes they are.
pub fn put_records(out: &mut [u8], at: usize, entry: &[u8], e: Extent) -> usize
    requires { Lies entry.now e × (at + (e.past - e.from) * 81 ≤ length out.old) }
    ensures value { result ≡ length (bytes_of entry.now e) }
    ensures out_after { out.new
        ≡ paste out.old at (bytes_of entry.now e) (length (bytes_of entry.now e)) }
{
    let first = e.from;
    let past = e.past;
    let from = first * 81;
    let n = (past - first) * 81;
    put_part(out, at, entry, from, n);
    n
}
