// What is counted after a record without fault, by its role.
ghost use Rattle.std.specs.Prelude.{◌≡◌, ◌-◌, ◌≤◌, ◌<◌};
ghost use Rattle.paper_record.specs.Columns.{Whole};
ghost use Rattle.paper_rules.specs.Limits.{MOST-RECORDS};
ghost use Rattle.paper_rules.specs.Ranging.{Bounded};
ghost use Rattle.paper_rules.specs.Values.{values_for};
ghost use Rattle.paper_entry.specs.Counted.{after_system, after_inside, track_after};

use entry_tally::tally::{
    headings_read, numbers_read, open_bib, open_subentry, open_table, text_read, units_read,
};
use paper_record::types::Values;
use paper_rules::types::Track;
use record::system::{count_of, count_to, number_of, subentry_of};
use record_expected::expected::accession;
use record_names::identifier::{BIB, COMMON, DATA, ENTRY};
use rules_limits::limits::{MOST_COLUMNS, MOST_LINES};
use rules_roles::roles::{TEXT, is_heading, is_system, is_unit, is_value, opens_subentry};
use rules_state::state::{counted, with_accession, with_table};

// What is counted after a system record.
#[tactic(auto, unfolding(paper_entry::specs::Counted::after_system))]
fn after_system(t: Track, role: usize, fs: [[u8; 11]; 6], rec: &[u8]) -> Track
    requires bounded { Bounded t }
    requires whole { Whole rec.now }
    ensures { result ≡ after_system t role fs rec.now }
{
    let f = fs[1];
    let g = fs[2];
    if role == ENTRY {
        with_accession(t, accession(rec))
    } else if opens_subentry(role) {
        open_subentry(t, subentry_of(f))
    } else if role == BIB {
        open_bib(t, number_of(count_of(f)), number_of(count_of(g)))
    } else if role == COMMON {
        let columns = count_to(MOST_COLUMNS as u32, f);
        open_table(t, columns, 1)
    } else if role == DATA {
        let columns = count_to(MOST_COLUMNS as u32, f);
        let last = count_to(MOST_LINES as u32, g);
        open_table(t, columns, last)
    } else {
        t
    }
}

// What is counted after a record inside a section.
#[tactic(auto, unfolding(paper_entry::specs::Counted::after_inside))]
fn after_inside(t: Track, role: usize, fs: [[u8; 11]; 6], numbers: u32) -> Track
    requires bounded { Bounded t }
    requires numbers_bound { numbers ≤ 6 }
    ensures { result ≡ after_inside t role fs numbers }
{
    if role == TEXT {
        text_read(t, fs[0])
    } else if is_heading(role) {
        with_table(t, headings_read(t.table))
    } else if is_unit(role) {
        with_table(t, units_read(t.table))
    } else if is_value(role) {
        numbers_read(t, role, numbers)
    } else {
        t
    }
}

#[tactic(auto, unfolding(paper_entry::specs::Counted::track_after))]
pub fn track_after(t: Track, role: usize, fs: [[u8; 11]; 6], values: Values, rec: &[u8]) -> Track
    requires bounded { Bounded t }
    requires records_bound { t.records.0 < MOST-RECORDS }
    requires whole { Whole rec.now }
    requires values_value { values ≡ values_for t role fs }
    ensures { result ≡ track_after t role fs rec.now }
{
    let u = counted(t);
    if is_system(role) {
        return after_system(u, role, fs, rec);
    }
    after_inside(u, role, fs, values.numbers)
}
