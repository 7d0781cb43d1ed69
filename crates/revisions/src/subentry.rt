// Subentry n of a held entry or of its revision. The answer says its number, or the place of the part; a second call hands the part itself
// out of whichever of the two holds it.
ghost use Rattle.std.specs.Prelude.{◌≡◌, cond};
ghost use Rattle.laws.specs.Part.{Behind};
ghost use Rattle.paper_revisions.specs.Picking.{picked, picked_bytes};

use crate::both::both_refusal;
use paper_revisions::types::Picked;
use revisions_pick::handing::part_of_one;
use revisions_pick::pick::{no_part, picked_among};

// The only one that has it, or, where both do, the revision unless its date for n is earlier.
pub fn subentry(held: &[u8], revision: &[u8], n: u32) -> Picked
    ensures { result ≡ picked held.now revision.now n }
{
    let both = both_refusal(held, revision);
    let answer = both.answer;
    if answer.number != 0 {
        return no_part(answer, both.which);
    }
    picked_among(held, revision, n)
}

// The part itself, in its place in the one that holds it; a refused one is empty. One lifetime for both: the part may be of either.
pub fn subentry_part<'a>(held: &'a [u8], revision: &'a [u8], n: u32) -> &'a [u8]
    ensures behind { Behind
        (cond (picked held.now revision.now n).revision revision.entry.ref_ptr held.entry.ref_ptr)
        result.ref_ptr (picked held.now revision.now n).first }
    ensures result_value { result.now ≡ picked_bytes held.now revision.now
        (picked held.now revision.now n) }
{
    let part = subentry(held, revision, n);
    part_of_one(held, revision, part)
}
