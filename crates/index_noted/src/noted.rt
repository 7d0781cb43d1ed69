// What a record leaves in the rows of an index.
ghost use Rattle.std.specs.Prelude.{◌≡◌};
ghost use Rattle.index_noted.specs.Noting.{is_noted, row_begun, row_behind, stored_behind, RoomBehind};

use index_store::store::put_row;
use paper_questions::types::Row;
use paper_record::types::RecordNo;
use questions_noted::row::{empty_row, noted_in};
use record_names::identifier::{NOSUBENT, SUBENT};
use rules_roles::roles::{opens_section, opens_subentry};

// Whether a record changes a row.
fn is_noted(role: usize) -> bool
    ensures { result ≡ is_noted role }
{
    opens_section(role) || role == SUBENT || role == NOSUBENT
}

// SUBENT and NOSUBENT begin a row.
fn row_begun(row: Row, number: u32, role: usize) -> Row
    ensures { result ≡ row_begun row number role }
{
    if opens_subentry(role) {
        empty_row(number)
    } else {
        row
    }
}

// Notes a record of the subentry with a number, the last of so many, and stores its row if the record changes it.
pub fn note_row(
    index: &mut [u32],
    rows: u32,
    row: Row,
    number: u32,
    role: usize,
    at: RecordNo,
) -> Row
    requires { RoomBehind index.old rows role }
    ensures value { result ≡ row_behind row number role at }
    ensures index_after { index.new ≡ stored_behind index.old rows result role }
{
    if !is_noted(role) {
        return row;
    }
    let begun = row_begun(row, number, role);
    let noted = noted_in(begun, number, role, at);
    let before = rows as usize - 1;
    put_row(index, before, noted);
    noted
}
