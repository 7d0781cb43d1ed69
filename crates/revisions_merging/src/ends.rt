// The ENTRY and the ENDENTRY record of a merge.
ghost use Rattle.std.specs.Prelude.{◌≡◌, ◌+◌, ◌≤◌, length};
ghost use Rattle.std.proofs.Math.Seq.{paste};
ghost use Rattle.paper_revisions.specs.Merging.{digit_from, count_columns, entry_record, end_record};

use crate::parts::put_part;
use canonical_fields::fields::put_plain;
use revisions_extents::extents::date_at;

// The revision's ENTRY record, with the later of both dates.
pub fn put_entry(out: &mut [u8], held: &[u8], revision: &[u8])
    requires { (81 ≤ length held.now) × (81 ≤ length revision.now) × (81 ≤ length out.old) }
    ensures { out.new
        ≡ paste out.old 0 (entry_record held.now revision.now) 81 }
{
    let of_held = date_at(held, 0);
    let of_revision = date_at(revision, 0);
    put_part(out, 0, revision, 0, 81);
    if of_held > of_revision {
        put_part(out, 25, held, 25, 8);
    }
}

// A digit of a count, a blank where the count is below the least number that has it.
fn digit_from(least: usize, n: usize, digit: usize) -> u8
    ensures { result ≡ digit_from least n digit }
{
    if least <= n {
        return 48 + (digit % 10) as u8;
    }
    b' '
}

// A count in eleven columns.
fn put_count(out: &mut [u8], at: usize, n: usize)
    requires { at + 11 ≤ length out.old }
    ensures { out.new ≡ paste out.old at (count_columns n) 11 }
{
    let hundreds = digit_from(100, n, n / 100);
    let tens = digit_from(10, n, n / 10);
    let ones = 48 + (n % 10) as u8;
    let columns = [
        b' ', b' ', b' ', b' ', b' ', b' ', b' ', b' ', hundreds, tens, ones,
    ];
    put_plain(out, at, &columns);
}

// The revision's ENDENTRY record, with this count.
pub fn put_end(out: &mut [u8], at: usize, revision: &[u8], count: usize)
    requires { (81 ≤ length revision.now) × (at + 81 ≤ length out.old) }
    ensures { out.new
        ≡ paste out.old at (end_record revision.now count) 81 }
{
    let last = revision.len() / 81 - 1;
    let from = last * 81;
    let columns = at + 11;
    put_part(out, at, revision, from, 81);
    put_count(out, columns, count);
}
