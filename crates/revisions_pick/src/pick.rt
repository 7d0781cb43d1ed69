// Which of two entries hands a subentry out, and where it stands there.
ghost use Rattle.std.specs.Prelude.{◌≡◌, true, cond};
ghost use Rattle.paper_entry.specs.Answer.{answer_of};
ghost use Rattle.paper_revisions.specs.Extents.{extent_of};
ghost use Rattle.paper_revisions.specs.Taken.{some as someOf};
ghost use Rattle.paper_revisions.specs.Picking.{is_gone, part_of, no_part};
ghost use Rattle.revisions_pick.specs.Among.{picked_among};

use columns::fields::field;
use entry_verdict::answer::answer_of;
use paper_entry::types::Answer;
use paper_revisions::types::{Extent, Picked};
use record_names::identifier::{NOSUBENT, Names};
use revisions_extents::extents::{extent, is_subentry};
use revisions_extents::taken::{by_revision, some};

// Whether the subentry n is a NOSUBENT; it has the records e, and there are some.
pub fn is_gone(entry: &[u8], n: u32, e: Extent) -> bool
    requires e_value { e ≡ extent_of entry.now n }
    requires e_value_2 { someOf e ≡ true }
    ensures { result ≡ is_gone entry.now n }
{
    let from = e.from * 81;
    let past = from + 81;
    let f = field(&entry[from..past], 0);
    let names = Names::new();
    let name = names.identifier_of(f);
    name == NOSUBENT
}

// A refused subentry has no part.
pub fn no_part(answer: Answer, which: u8) -> Picked
    ensures { result ≡ no_part answer which }
{
    Picked {
        answer,
        which,
        revision: false,
        first: 0,
        length: 0,
    }
}

// The subentry n of the entry that hands it out; 62 where it is a NOSUBENT.
fn picked_from(entry: &[u8], n: u32, e: Extent, revision: bool) -> Picked
    requires e_value { e ≡ extent_of entry.now n }
    requires e_value_2 { someOf e ≡ true }
    ensures { result ≡ cond (is_gone entry.now n) (no_part (answer_of 62) 0)
        (part_of revision (extent_of entry.now n)) }
{
    if is_gone(entry, n, e) {
        let gone = answer_of(62);
        return no_part(gone, 0);
    }
    let answer = answer_of(0);
    let records = e.past - e.from;
    let first = e.from * 81;
    let length = records * 81;
    Picked {
        answer,
        which: 0,
        revision,
        first,
        length,
    }
}

// The subentry n of whichever of the two hands it out; 32 where neither has it.
pub fn picked_among(held: &[u8], revision: &[u8], n: u32) -> Picked
    ensures { result ≡ picked_among held.now revision.now n }
{
    if !is_subentry(n) {
        let no_number = answer_of(32);
        return no_part(no_number, 0);
    }
    let d = extent(held, n);
    let e = extent(revision, n);
    if by_revision(held, revision, d, e) {
        return picked_from(revision, n, e, true);
    }
    if some(d) {
        return picked_from(held, n, d, false);
    }
    let none = answer_of(32);
    no_part(none, 0)
}
