// The verdicts on two entries and their accessions: what both calls about a revision answer first.
ghost use Rattle.std.specs.Prelude.{◌≡◌};
ghost use Rattle.paper_revisions.specs.Picking.{both_of};

use entry::judge::judge;
use paper_revisions::types::Both;
use revisions_pick::both::{by_accession, named_first};

// 60 where an entry is refused, 61 where the accessions differ, else 0: both are then accepted.
pub fn both_refusal(held: &[u8], revision: &[u8]) -> Both
    ensures { result ≡ both_of held.now revision.now }
{
    let v = judge(held);
    let w = judge(revision);
    let named = named_first(v, w);
    let answer = named.answer;
    if answer.number != 0 {
        return named;
    }
    by_accession(held, revision)
}
