// Whose records of one number are taken, those of the held entry or those of the revision.
ghost use Rattle.std.specs.Prelude.{◌≡◌};
ghost use Rattle.paper_revisions.specs.Taken.{some as someOf, by_revision, Lies};

use crate::extents::date_at;
use paper_revisions::types::Extent;

// Whether there are any records.
pub fn some(e: Extent) -> bool
    ensures { result ≡ someOf e }
{
    e.from < e.past
}

// Whether the revision's records e are taken: there are some, and none of the held entry, or none of a later date.
pub fn by_revision(held: &[u8], revision: &[u8], d: Extent, e: Extent) -> bool
    requires lies { Lies held.now d }
    requires lies_2 { Lies revision.now e }
    ensures { result ≡ by_revision held.now revision.now d e }
{
    if !some(e) {
        return false;
    }
    if !some(d) {
        return true;
    }
    let first = d.from;
    let old = date_at(held, first);
    let own = e.from;
    let new = date_at(revision, own);
    old <= new
}
