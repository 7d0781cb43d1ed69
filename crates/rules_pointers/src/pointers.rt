// The rule for the pointers of DATA headings: refusal 14. It gives the leftmost column at fault, 0 where there is none, as
// `leftmost` (paper_faults) does.
ghost use Rattle.std.specs.Prelude.{◌≡◌, ◌+◌, ◌-◌, ◌*◌, ◌/◌, ◌%◌, ◌≤◌, ◌<◌, eqb};
ghost use Rattle.laws.specs.Members.{any_of};
ghost use Rattle.laws.specs.Search.{first};
ghost use Rattle.paper_rules.specs.Ranging.{Stands, seen_of};
ghost use Rattle.paper_rules.specs.Roles.{DATA-HEADING};
ghost use Rattle.paper_faults.specs.Fault.{leftmost, on};
ghost use Rattle.paper_rules.specs.Pointers.{heading_pointers, pointers_for, pointer_lost, lost_at, rule14};

use paper_rules::types::{Ranges, Track};
use rules_earlier::earlier::headings_in;
use rules_roles::fault::field_column;
use rules_roles::ranging::part;
use rules_roles::roles::DATA_HEADING;
use rules_state::state::used;
use rules_text::text::pointer_in;

// Whether one of the headings of a part has the pointer.
fn heading_pointer_in(part: &[u8], pointer: u8) -> bool
    ensures { result ≡ any_of (eqb pointer) (heading_pointers part.now) }
{
    for m in 0..headings_in(part) {
        if pointer == part[m / 6 * 81 + m % 6 * 11 + 10] {
            return true;
        }
    }
    false
}

// Whether a pointer stands in a BIB or on a heading of a COMMON.
#[tactic(auto, using(laws::proofs::Members::any_append), unfolding(paper_rules::specs::Pointers::pointers_for))]
fn pointer_found(bib: &[u8], bib001: &[u8], common: &[u8], common001: &[u8], pointer: u8) -> bool
    ensures { result
        ≡ any_of (eqb pointer)
        (pointers_for bib.now bib001.now common.now common001.now) }
{
    pointer_in(bib, pointer)
        || pointer_in(bib001, pointer)
        || heading_pointer_in(common, pointer)
        || heading_pointer_in(common001, pointer)
}

fn pointer_lost(bib: &[u8], bib001: &[u8], common: &[u8], common001: &[u8], f: [u8; 11]) -> bool
    ensures { result
        ≡ pointer_lost
        (pointers_for bib.now bib001.now common.now common001.now) f }
{
    f[10] != b' ' && !pointer_found(bib, bib001, common, common001, f[10])
}

// The first of the first n fields whose pointer is not found, or n.
fn lost_at(
    bib: &[u8],
    bib001: &[u8],
    common: &[u8],
    common001: &[u8],
    fs: [[u8; 11]; 6],
    n: usize,
) -> usize
    requires { n ≤ 6 }
    ensures { result
        ≡ first (lost_at
        (pointers_for bib.now bib001.now common.now common001.now) fs) 0
        n }
{
    for k in 0..n {
        if pointer_lost(bib, bib001, common, common001, fs[k]) {
            return k;
        }
    }
    n
}

pub fn rule14(track: Track, ranges: Ranges, before: &[u8], role: usize, fs: [[u8; 11]; 6]) -> u8
    requires { Stands track ranges before.now }
    ensures { result
        ≡ leftmost (on (eqb role DATA-HEADING) (rule14 (seen_of before.now ranges) track fs)) }
{
    if role != DATA_HEADING {
        return 0;
    }
    let n = used(track);
    let k = lost_at(
        part(before, ranges.bib),
        part(before, ranges.bib001),
        part(before, ranges.common),
        part(before, ranges.common001),
        fs,
        n,
    );
    field_column(k, n)
}
