// The merge of a held entry and its revision, number by number.
ghost use Rattle.std.specs.Prelude.{◌≡◌, ◌+◌, length, drop};
ghost use Rattle.std.proofs.Math.Seq.{paste};
ghost use Rattle.paper_revisions.specs.Merging.{end_record};
ghost use Rattle.revisions_merging.specs.Cursors.{merge_by_cursors, Room, Begun, Upto};

use crate::chosen::put_one;
use crate::ends::{put_end, put_entry};
use crate::types::Cursors;

// All subentries behind ENTRY, so that ENDENTRY with this count is left.
fn put_subentries(held: &[u8], revision: &[u8], out: &mut [u8]) -> Cursors
    requires { Begun held.now revision.now out.old }
    ensures upto { Upto held.now revision.now out.old 999 result }
    ensures revision_value { drop result.at (merge_by_cursors held.now revision.now)
        ≡ end_record revision.now result.count }
    ensures out_after { out.new
        ≡ paste out.old 0 (merge_by_cursors held.now revision.now) result.at }
{
    let mut c = Cursors {
        held: 1,
        revision: 1,
        at: 81,
        count: 0,
    };
    for n in 1..999 {
        c = put_one(held, revision, out, n, c);
    }
    c
}

// The whole merge; hands back its length. What stands behind it in the buffer stays.
pub fn write_merge(held: &[u8], revision: &[u8], out: &mut [u8]) -> usize
    requires { Room held.now revision.now out.old }
    ensures value { result ≡ length (merge_by_cursors held.now revision.now) }
    ensures out_after { out.new
        ≡ paste out.old 0 (merge_by_cursors held.now revision.now) result }
{
    put_entry(out, held, revision);
    let c = put_subentries(held, revision, out);
    let at = c.at;
    let count = c.count;
    put_end(out, at, revision, count);
    at + 81
}
