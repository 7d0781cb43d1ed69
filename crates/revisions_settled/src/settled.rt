// The room for a merge, and the buffer and the answer by the verdict on it.
ghost use Rattle.std.specs.Prelude.{◌≡◌, ◌+◌, ◌≤◌, ltb, length};
ghost use Rattle.revisions_settled.specs.Settled.{no_merge, settled_by, kept_by};

use canonical_parts::parts::put_blanks;
use entry_verdict::answer::answer_of;
use paper_entry::types::{Answer, Verdict};
use paper_revisions::types::Merged;
use revisions_pick::both::beside_verdict;

// Whether a buffer is shorter than both lengths together.
pub fn no_room(held: usize, revision: usize, room: usize) -> bool
    ensures { result ≡ ltb room (held + revision) }
{
    if room < held {
        return true;
    }
    let left = room - held;
    left < revision
}

// A merge that is not written has no length.
pub fn no_merge(answer: Answer, which: u8) -> Merged
    ensures { result ≡ no_merge answer which }
{
    Merged {
        answer,
        which,
        length: 0,
    }
}

// The merge in the first n bytes of a buffer stays, or becomes blanks where the verdict on it is a refusal.
pub fn settled(out: &mut [u8], n: usize, v: Verdict) -> Merged
    requires { n ≤ length out.old }
    ensures value { result ≡ settled_by v n }
    ensures out_after { out.new ≡ kept_by v out.old n }
{
    if v.refusal != 0 {
        put_blanks(out, n);
        let answer = beside_verdict(63, v);
        return Merged {
            answer,
            which: 0,
            length: n,
        };
    }
    let answer = answer_of(0);
    Merged {
        answer,
        which: 0,
        length: n,
    }
}
