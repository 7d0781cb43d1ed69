// One number of a merge: whose records it takes, and the cursors behind them.
ghost use Rattle.std.specs.Prelude.{◌≡◌, ◌+◌, ◌-◌, ◌*◌, ◌≤◌, length};
ghost use Rattle.std.proofs.Math.Seq.{paste};
ghost use Rattle.paper_revisions.specs.Taken.{Lies};
ghost use Rattle.revisions_merging.specs.Cursors.{met_at, taken_of, counts_one, behind_one, Upto};

use crate::parts::put_records;
use crate::types::Cursors;
use paper_revisions::types::Extent;
use revisions_extents::extents::past_from;
use revisions_extents::taken::{by_revision, some};

// The records that are taken; hands back how many bytes they are.
fn put_chosen(
    held: &[u8],
    revision: &[u8],
    out: &mut [u8],
    at: usize,
    d: Extent,
    e: Extent,
) -> usize
    requires { Lies held.now d × Lies revision.now e
        × (at + ((d.past - d.from) + (e.past - e.from)) * 81 ≤ length out.old) }
    ensures value { result ≡ length (taken_of held.now revision.now d e) }
    ensures out_after { out.new
        ≡ paste out.old at (taken_of held.now revision.now d e)
        (length (taken_of held.now revision.now d e)) }
{
    if by_revision(held, revision, d, e) {
        return put_records(out, at, revision, e);
    }
    put_records(out, at, held, d)
}

// A subentry counts once.
fn one_of(d: Extent, e: Extent) -> usize
    ensures { result ≡ counts_one d e }
{
    if some(d) {
        return 1;
    }
    if some(e) {
        return 1;
    }
    0
}

// The subentry n, where there is one, and both cursors behind it.
pub fn put_one(held: &[u8], revision: &[u8], out: &mut [u8], n: u32, c: Cursors) -> Cursors
    requires { Upto held.now revision.now out.old n c }
    ensures value { result ≡ behind_one held.now revision.now n c }
    ensures out_after { out.new
        ≡ paste out.old c.at
        (taken_of held.now revision.now (met_at held.now n c.held)
        (met_at revision.now n c.revision))
        (length (taken_of held.now revision.now (met_at held.now n c.held)
        (met_at revision.now n c.revision))) }
{
    let i = c.held;
    let j = c.revision;
    let at = c.at;
    let count = c.count;
    let p = past_from(held, i, n);
    let q = past_from(revision, j, n);
    let d = Extent { from: i, past: p };
    let e = Extent { from: j, past: q };
    let long = put_chosen(held, revision, out, at, d, e);
    let more = one_of(d, e);
    let to = at + long;
    let counted = count + more;
    Cursors {
        held: p,
        revision: q,
        at: to,
        count: counted,
    }
}
