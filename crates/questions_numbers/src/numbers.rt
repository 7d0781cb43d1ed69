// What a question knows by numbers alone: whether a record is in the entry, and where the row has a section.
ghost use Rattle.std.specs.Prelude.{◌≡◌};
ghost use Rattle.paper_record.specs.Text.{within};
ghost use Rattle.paper_questions.specs.Refused.{section_in};
ghost use Rattle.paper_index.specs.Reads.{in_entry, table_identifier};

use paper_questions::types::Row;
use paper_record::types::RecordNo;
use questions_places::place::{COMMON_SECTION, DATA_SECTION, has_record};
use record_names::identifier::{COMMON, DATA};
use record_words::word::is_within;
use rules_state::state::MOST_RECORDS;

// Whether a record lies inside the entry, as one of its 20,000 at most.
pub fn in_entry(entry: &[u8], at: RecordNo) -> bool
    ensures { result ≡ in_entry entry.now at }
{
    has_record(entry, at) && at.0 <= MOST_RECORDS
}

// Whether `1 <= n <= most`.
pub fn is_counted(most: u32, n: u32) -> bool
    ensures { result ≡ within 1 most n }
{
    is_within(1, u64::from(most), u64::from(n))
}

pub fn section_in(row: Row, section: u32) -> RecordNo
    ensures { result ≡ section_in row section }
{
    if section == COMMON_SECTION {
        row.common
    } else if section == DATA_SECTION {
        row.data
    } else {
        RecordNo(0)
    }
}

// The identifier of a section of a table.
pub fn table_identifier(section: u32) -> usize
    ensures { result ≡ table_identifier section }
{
    if section == COMMON_SECTION {
        COMMON
    } else {
        DATA
    }
}
