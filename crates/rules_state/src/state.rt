// The state between two records: a phase of the nesting and a track of plain numbers.
ghost use Rattle.std.specs.Prelude.{◌≡◌, ℕ, ◌+◌, ◌*◌, ◌≤◌, ◌<◌};
ghost use Rattle.paper_rules.specs.Limits.{MOST-RECORDS};
ghost use Rattle.paper_rules.specs.State.{start_track, with_accession, with_totals, with_subentry, with_section};
ghost use Rattle.paper_rules.specs.State.{with_bib, with_table, counted, used, row_ends};
ghost use Rattle.paper_rules.specs.Ranging.{Bounded};

use paper_record::types::{Index, LineNo};
use paper_rules::types::{Bib, Subentry, Table, Totals, Track};
use rules_roles::roles::VALUES;

// The limits of document 01.
pub const MOST_RECORDS: u32 = 20000;

// Before the first record.
pub fn start_track() -> Track
    ensures { result ≡ start_track }
{
    Track {
        records: Index(0),
        accession: [b' '; 5],
        totals: Totals {
            subentries: 0,
            keywords: 0,
            lines: 0,
            numbers: 0,
        },
        subentry: Subentry {
            number: 0,
            records: 0,
        },
        section: 0,
        bib: Bib {
            keywords: 0,
            records: 0,
            met: 0,
        },
        table: Table {
            columns: 0,
            last: LineNo(0),
            row: VALUES,
            line: LineNo(0),
            rest: 0,
            blank: true,
        },
    }
}

pub fn with_accession(track: Track, accession: [u8; 5]) -> Track
    ensures { result ≡ with_accession track accession }
{
    Track { accession, ..track }
}

pub fn with_totals(track: Track, totals: Totals) -> Track
    ensures { result ≡ with_totals track totals }
{
    Track { totals, ..track }
}

pub fn with_subentry(track: Track, subentry: Subentry) -> Track
    ensures { result ≡ with_subentry track subentry }
{
    Track { subentry, ..track }
}

pub fn with_section(track: Track, section: u32) -> Track
    ensures { result ≡ with_section track section }
{
    Track { section, ..track }
}

pub fn with_bib(track: Track, bib: Bib) -> Track
    ensures { result ≡ with_bib track bib }
{
    Track { bib, ..track }
}

pub fn with_table(track: Track, table: Table) -> Track
    ensures { result ≡ with_table track table }
{
    Track { table, ..track }
}

// The record in hand is counted.
pub fn counted(track: Track) -> Track
    requires bounded { Bounded track }
    requires records_bound { track.records.0 < MOST-RECORDS }
    ensures { result ≡ counted track }
{
    Track {
        records: Index(track.records.0 + 1),
        subentry: Subentry {
            records: track.subentry.records + 1,
            ..track.subentry
        },
        section: track.section + 1,
        ..track
    }
}

// The fields that are used in the record in hand.
pub fn used(track: Track) -> usize
    ensures value { result ≡ used track }
    ensures upper_bound { result ≤ 6 }
{
    if row_ends(track) {
        track.table.rest as usize
    } else {
        6
    }
}

// Whether the record in hand is the last of its row.
pub fn row_ends(track: Track) -> bool
    ensures { result ≡ row_ends track }
{
    track.table.rest <= 6
}
