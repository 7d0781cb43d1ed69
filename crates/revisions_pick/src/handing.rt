// A part of whichever of two entries holds it: one lifetime for both, as the caller lends both.
ghost use Rattle.std.specs.Prelude.{◌≡◌, ◌+◌, ◌≤◌, cond, length, take, drop};
ghost use Rattle.laws.specs.Part.{Behind};
ghost use Rattle.paper_revisions.specs.Picking.{picked_bytes};
ghost use Rattle.revisions_pick.specs.Among.{LiesInOne};

use paper_revisions::types::Picked;

// The revision or the held entry.
fn whichever<'a>(held: &'a [u8], revision: &'a [u8], second: bool) -> &'a [u8]
    ensures ref_ptr_value { result.ref_ptr ≡ cond second revision.entry.ref_ptr held.entry.ref_ptr }
    ensures result_value { result.now ≡ cond second revision.now held.now }
{
    if second {
        return revision;
    }
    held
}

// So many bytes of an entry from a byte on.
fn bytes_from<'a>(entry: &'a [u8], first: usize, count: usize) -> &'a [u8]
    requires { first + count ≤ length entry.now }
    ensures behind { Behind entry.entry.ref_ptr result.ref_ptr first }
    ensures result_value { result.now ≡ take count (drop first entry.now) }
{
    let past = first + count;
    &entry[first..past]
}

// The part that was picked, in its place in the one of the two that it names.
pub fn part_of_one<'a>(held: &'a [u8], revision: &'a [u8], p: Picked) -> &'a [u8]
    requires { LiesInOne held.now revision.now p }
    ensures behind { Behind (cond p.revision revision.entry.ref_ptr held.entry.ref_ptr) result.ref_ptr p.first }
    ensures result_value { result.now ≡ picked_bytes held.now revision.now p }
{
    let whole = whichever(held, revision, p.revision);
    let first = p.first;
    let count = p.length;
    bytes_from(whole, first, count)
}
