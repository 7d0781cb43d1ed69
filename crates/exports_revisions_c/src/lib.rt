// The archive of `exports_revisions` for C: a held entry and its revision. Each function has the name, the arguments and
// the promise of one there, and calls it.

#![tactic(auto)]

ghost use Rattle.std.specs.Prelude.{◌≡◌, length};
ghost use Rattle.paper_revisions.specs.Picking.{picked};
ghost use Rattle.paper_revisions.specs.Merging.{merged, merged_into};
ghost use Rattle.exports_picks.specs.Picks.{picked_word, picked_stored, merged_word, merged_stored};

// Stores which of the two a subentry lies in, its first byte and its length. A refused call stores nothing.
#[unsafe(no_mangle)]
pub extern "C" fn x4_subentry(
    held: &[u8],
    revision: &[u8],
    subentry: u32,
    part: &mut [u64; 3],
) -> u64
    ensures value { result ≡ picked_word (picked held.now revision.now subentry) }
    ensures part_after { part.new
        ≡ picked_stored part.old (picked held.now revision.now subentry) }
{
    exports_revisions::asking::x4_subentry(held, revision, subentry, part)
}

// Stores the merge in a buffer that may be longer, and how long it is; of a refused merge so many blanks and its length. Any other refused
// call stores nothing.
#[unsafe(no_mangle)]
pub extern "C" fn x4_merge(held: &[u8], revision: &[u8], out: &mut [u8], long: &mut [u64; 1]) -> u64
    ensures value { result ≡ merged_word (merged held.now revision.now (length out.old)) }
    ensures out_after { out.new ≡ merged_into held.now revision.now out.old }
    ensures long_after { long.new
        ≡ merged_stored long.old (merged held.now revision.now (length out.old)) }
{
    exports_revisions::asking::x4_merge(held, revision, out, long)
}
