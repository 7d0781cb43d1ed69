// The row of each subentry of an accepted entry, stored on the way from system record to system record.
ghost use Rattle.std.specs.Prelude.{◌≡◌, ◌≤◌};
ghost use Rattle.paper_rules.specs.Limits.{MOST-RECORDS};
ghost use Rattle.paper_index.specs.Rows.{index_of};
ghost use Rattle.paper_index.specs.Making.{over};
ghost use Rattle.index_walk.specs.Room.{IndexRoom, rows_behind};

use index_noted::noted::note_row;
use paper_record::types::RecordNo;
use questions_noted::row::empty_row;
use questions_system::system::system_at;
use record_names::identifier::Names;
use rules_roles::roles::opens_subentry;

// How many subentries there are behind a system record.
fn rows_behind(identifier: usize, rows: u32) -> u32
    requires { rows ≤ MOST-RECORDS }
    ensures { result ≡ rows_behind identifier rows }
{
    if opens_subentry(identifier) {
        return rows + 1;
    }
    rows
}

// Goes over the system records of an accepted entry and stores its index; the numbers past it stay.
pub fn store_rows(entry: &[u8], index: &mut [u32])
    requires { IndexRoom entry.now index.old }
    ensures { index.new ≡ over (index_of entry.now) index.old }
{
    let n = (entry.len() / 81) as u32;
    let names = Names::new();
    let mut hand = 0;
    let mut rows = 0;
    let mut row = empty_row(0);
    let mut i = 0;
    // A `for` goes one record on: here each record says how many more are passed over.
    while i < n {
        let at = RecordNo(i + 1);
        let found = system_at(entry, &names, at, hand);
        let identifier = found.identifier;
        let behind = found.hand;
        rows = rows_behind(identifier, rows);
        row = note_row(index, rows, row, behind, identifier, at);
        hand = behind;
        i = i + 1 + found.inside;
    }
}
