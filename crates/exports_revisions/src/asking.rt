// A subentry of a held entry or of its revision, and the two as one entry, for host programs.
ghost use Rattle.std.specs.Prelude.{◌≡◌, length};
ghost use Rattle.paper_revisions.specs.Picking.{picked};
ghost use Rattle.paper_revisions.specs.Merging.{merged, merged_into};
ghost use Rattle.exports_picks.specs.Picks.{picked_word, picked_stored, merged_word, merged_stored};

use exports_picks::picks::{put_merged, put_picked};
use revisions::subentry::subentry as ask_subentry;
use revisions_merge::merge::merge;

// Stores which of the two a subentry lies in, its first byte and its length. A refused call stores nothing.
#[unsafe(no_mangle)]
pub extern "C" fn x4_subentry(
    held: &[u8],
    revision: &[u8],
    subentry: u32,
    part: &mut [u64; 3],
) -> u64
    ensures value { result ≡ picked_word (picked held.now revision.now subentry) }
    ensures part_after { part.new
        ≡ picked_stored part.old (picked held.now revision.now subentry) }
{
    let p = ask_subentry(held, revision, subentry);
    put_picked(p, part)
}

// Stores the merge in a buffer that may be longer, and how long it is; of a refused merge so many blanks and its length. Any other refused
// call stores nothing.
#[unsafe(no_mangle)]
pub extern "C" fn x4_merge(held: &[u8], revision: &[u8], out: &mut [u8], long: &mut [u64; 1]) -> u64
    ensures value { result ≡ merged_word (merged held.now revision.now (length out.old)) }
    ensures out_after { out.new ≡ merged_into held.now revision.now out.old }
    ensures long_after { long.new
        ≡ merged_stored long.old (merged held.now revision.now (length out.old)) }
{
    let m = merge(held, revision, out);
    put_merged(m, long)
}
