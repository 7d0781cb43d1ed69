// What is answered before a subentry is looked for: by the two verdicts, and by the two accessions.
ghost use Rattle.std.specs.Prelude.{◌≡◌, ◌≤◌, length};
ghost use Rattle.paper_revisions.specs.Picking.{other_accession, beside_verdict};
ghost use Rattle.revisions_pick.specs.Among.{named_first, by_accession};

use entry_verdict::answer::answer_of;
use paper_entry::types::{Answer, Verdict};
use paper_revisions::types::Both;
use record_expected::expected::{accession, same_five};

// A number, and beside it what a verdict says.
pub fn beside_verdict(number: u8, v: Verdict) -> Answer
    ensures { result ≡ beside_verdict number v }
{
    let record = v.record;
    Answer {
        number,
        refusal: v.refusal,
        record,
        column: v.column,
        ordinal: v.ordinal,
    }
}

// The first of two verdicts that is a refusal: 60, with which of the two it is; 0 where neither is.
pub fn named_first(v: Verdict, w: Verdict) -> Both
    ensures { result ≡ named_first v w }
{
    if v.refusal != 0 {
        let answer = beside_verdict(60, v);
        return Both { answer, which: 1 };
    }
    if w.refusal != 0 {
        let answer = beside_verdict(60, w);
        return Both { answer, which: 2 };
    }
    let answer = answer_of(0);
    Both { answer, which: 0 }
}

// Whether the accessions of two entries differ.
pub fn other_accession(held: &[u8], revision: &[u8]) -> bool
    requires in_bounds { 81 ≤ length held.now }
    requires in_bounds_2 { 81 ≤ length revision.now }
    ensures { result ≡ other_accession held.now revision.now }
{
    let a = accession(&held[0..81]);
    let b = accession(&revision[0..81]);
    !same_five(a, b)
}

// 61 where they differ, else 0.
pub fn by_accession(held: &[u8], revision: &[u8]) -> Both
    requires in_bounds { 81 ≤ length held.now }
    requires in_bounds_2 { 81 ≤ length revision.now }
    ensures { result ≡ by_accession (other_accession held.now revision.now) }
{
    if other_accession(held, revision) {
        let answer = answer_of(61);
        return Both { answer, which: 0 };
    }
    let answer = answer_of(0);
    Both { answer, which: 0 }
}
