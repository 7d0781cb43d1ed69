// A system record of an accepted entry: what it is, and by its own counts where the next stands.
ghost use Rattle.std.specs.Prelude.{◌≡◌, ℕ, ◌≤◌};
ghost use Rattle.paper_questions.specs.Place.{fields_at, identifier_at};
ghost use Rattle.system_records.specs.Next.{table_records, records_inside, hand_behind};

use columns_places::places::records_for;
use paper_record::types::RecordNo;
use questions_places::place::field_at;
use record::system::{count_to, subentry_of};
use record_names::identifier::{BIB, COMMON, DATA, Names};
use rules_limits::limits::{MOST_COLUMNS, MOST_LINES};
use rules_roles::roles::opens_subentry;
use rules_state::state::MOST_RECORDS;

// The number of the subentry in hand behind the record, and how many records stand between it and the next system record.
#[derive(Clone, Copy)]
pub struct System {
    pub identifier: usize,
    pub hand: u32,
    pub inside: u32,
}

// The records of a table: headings, units and lines.
fn table_records(columns: u32, lines: u32) -> u32
    requires columns_bound { columns ≤ 18 }
    requires lines_bound { lines ≤ 20000 }
    ensures value { result ≡ table_records columns lines }
    ensures upper_bound { result ≤ 60006 }
{
    let k = records_for(columns);
    let rows = 2 + lines;
    rows * k
}

// The records of the section that a system record opens; none where it opens no section.
fn records_inside(entry: &[u8], at: RecordNo, identifier: usize) -> u32
    ensures value { result ≡ records_inside identifier (fields_at entry.now at) }
    ensures upper_bound { result ≤ 60006 }
{
    let a = field_at(entry, at, 1);
    let b = field_at(entry, at, 2);
    if identifier == BIB {
        return count_to(MOST_RECORDS, b);
    }
    let columns = count_to(MOST_COLUMNS as u32, a);
    if identifier == COMMON {
        return table_records(columns, 1);
    }
    if identifier == DATA {
        let lines = count_to(MOST_LINES as u32, b);
        return table_records(columns, lines);
    }
    0
}

// The number of the subentry in hand behind a system record.
fn hand_behind(entry: &[u8], at: RecordNo, identifier: usize, hand: u32) -> u32
    ensures { result ≡ hand_behind identifier (fields_at entry.now at) hand }
{
    if !opens_subentry(identifier) {
        return hand;
    }
    let a = field_at(entry, at, 1);
    subentry_of(a)
}

// The system record with this number; `hand` is the number of the subentry in hand before it.
pub fn system_at(entry: &[u8], names: &Names, at: RecordNo, hand: u32) -> System
    ensures identifier_value { result.identifier ≡ identifier_at entry.now at }
    ensures hand_value { result.hand ≡ hand_behind (identifier_at entry.now at) (fields_at entry.now at) hand }
    ensures inside_value { result.inside ≡ records_inside (identifier_at entry.now at) (fields_at entry.now at) }
    ensures inside_bound { result.inside ≤ 60006 }
{
    let f = field_at(entry, at, 0);
    let identifier = names.identifier_of(f);
    let behind = hand_behind(entry, at, identifier, hand);
    let inside = records_inside(entry, at, identifier);
    System {
        identifier,
        hand: behind,
        inside,
    }
}
