// The merged entry, written into the caller's buffer and judged there.
ghost use Rattle.std.specs.Prelude.{◌≡◌, ◌++◌, ◌+◌, ◌≤◌, length, drop};
ghost use Rattle.paper_entry.specs.Judging.{Accepted, judge_of};
ghost use Rattle.paper_revisions.specs.Merging.{merge_of, merged, merged_into};
ghost use Rattle.revisions_settled.specs.Settled.{settled_by, kept_by};

use entry::judge::judge;
use entry_verdict::answer::answer_of;
use paper_revisions::types::Merged;
use revisions::both::both_refusal;
use revisions_merging::merging::write_merge;
use revisions_settled::settled::{no_merge, no_room, settled};

// The merge of two accepted entries, or blanks where it is refused.
fn put_merge(held: &[u8], revision: &[u8], out: &mut [u8]) -> Merged
    requires { Accepted held.now × Accepted revision.now × (length held.now + length revision.now ≤ length out.old) }
    ensures value { result
        ≡ settled_by (judge_of (merge_of held.now revision.now))
        (length (merge_of held.now revision.now)) }
    ensures out_after { out.new
        ≡ kept_by (judge_of (merge_of held.now revision.now))
        (merge_of held.now revision.now
        ++ drop (length (merge_of held.now revision.now)) out.old)
        (length (merge_of held.now revision.now)) }
{
    let long = write_merge(held, revision, out);
    let v = judge(&out[..long]);
    settled(out, long, v)
}

// All subentries of both in number order, each of whichever of the two hands it out, between the revision's ENTRY and ENDENTRY.
pub fn merge(held: &[u8], revision: &[u8], out: &mut [u8]) -> Merged
    ensures value { result ≡ merged held.now revision.now (length out.old) }
    ensures out_after { out.new ≡ merged_into held.now revision.now out.old }
{
    let both = both_refusal(held, revision);
    let answer = both.answer;
    if answer.number != 0 {
        return no_merge(answer, both.which);
    }
    let short = no_room(held.len(), revision.len(), out.len());
    if short {
        let refused = answer_of(37);
        return no_merge(refused, 0);
    }
    put_merge(held, revision, out)
}
