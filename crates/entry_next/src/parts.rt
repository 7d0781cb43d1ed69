// The parts that a later rule may look back at, after a record without fault.
ghost use Rattle.std.specs.Prelude.{◌≡◌, cond, ◌+◌, ◌-◌, ◌<◌};
ghost use Rattle.paper_rules.specs.Limits.{MOST-RECORDS};
ghost use Rattle.paper_entry.specs.Parts.{empties_bib, bib_change, under_change, table_change, ends001};
ghost use Rattle.paper_entry.specs.Ranging.{range_after, common_after, ranges_after};

use paper_entry::types::Change;
use paper_record::types::Index;
use paper_rules::types::{Range, Ranges, Track};
use record_names::identifier::{BIB, COMMON, DATA, ENDCOMMON, ENDSUBENT};
use record_words::word::is_keyword_blank;
use rules_roles::roles::{TEXT, is_heading, opens_subentry};

#[tactic(auto, unfolding(paper_entry::specs::Ranging::range_after))]
fn range_after(change: Change, g: Range, i: Index) -> Range
    requires { i.0 < MOST-RECORDS }
    ensures { result ≡ range_after change g i }
{
    let past = Index(i.0 + 1);
    match change {
        Change::Kept => g,
        Change::Emptied => Range { from: past, past },
        Change::Begun => Range { from: i, past },
        Change::Joined => Range { past, ..g },
    }
}

fn empties_bib(role: usize) -> bool
    ensures { result ≡ empties_bib role }
{
    opens_subentry(role) || role == BIB
}

#[tactic(auto, unfolding(paper_entry::specs::Parts::bib_change))]
fn bib_change(role: usize) -> Change
    ensures { result ≡ bib_change role }
{
    if empties_bib(role) {
        Change::Emptied
    } else if role == TEXT {
        Change::Joined
    } else {
        Change::Kept
    }
}

#[tactic(auto, unfolding(paper_entry::specs::Parts::under_change))]
fn under_change(role: usize, f: [u8; 11]) -> Change
    ensures { result ≡ under_change role f }
{
    if empties_bib(role) {
        Change::Emptied
    } else if role != TEXT {
        Change::Kept
    } else if is_keyword_blank(f) {
        Change::Joined
    } else {
        Change::Begun
    }
}

#[tactic(auto, unfolding(paper_entry::specs::Parts::table_change))]
fn table_change(role: usize) -> Change
    ensures { result ≡ table_change role }
{
    if role == COMMON || role == DATA {
        Change::Emptied
    } else if is_heading(role) {
        Change::Joined
    } else {
        Change::Kept
    }
}

#[tactic(auto, unfolding(paper_entry::specs::Ranging::common_after))]
fn common_after(g: Ranges, role: usize, i: Index) -> Range
    requires { i.0 < MOST-RECORDS }
    ensures { result ≡ common_after g role i }
{
    if opens_subentry(role) {
        range_after(Change::Emptied, g.common, i)
    } else if role == ENDCOMMON {
        g.table
    } else {
        g.common
    }
}

fn ends001(t: Track, role: usize) -> bool
    ensures { result ≡ ends001 t role }
{
    role == ENDSUBENT && t.subentry.number == 1
}

fn kept_or(ends: bool, own: Range, kept: Range) -> Range
    ensures { result ≡ cond ends own kept }
{
    if ends { own } else { kept }
}

#[tactic(auto, unfolding(paper_entry::specs::Ranging::ranges_after))]
pub fn ranges_after(g: Ranges, t: Track, role: usize, fs: [[u8; 11]; 6]) -> Ranges
    requires { t.records.0 < MOST-RECORDS }
    ensures { result ≡ ranges_after g t role fs }
{
    let f = fs[0];
    let i = t.records;
    let ends = ends001(t, role);
    let bib = range_after(bib_change(role), g.bib, i);
    let under = range_after(under_change(role, f), g.under, i);
    let bib001 = kept_or(ends, g.bib, g.bib001);
    let common001 = kept_or(ends, g.common, g.common001);
    let common = common_after(g, role, i);
    let table = range_after(table_change(role), g.table, i);
    Ranges {
        bib,
        under,
        bib001,
        common001,
        common,
        table,
    }
}
