// What a question reads of the section's record, behind the subentry's first, of any bytes and any row.
ghost use Rattle.std.specs.Prelude.{◌≡◌, ◌≤◌, not, [], ◌∷◌};
ghost use Rattle.paper_rules.specs.Limits.{MOST-RECORDS};
ghost use Rattle.paper_entry.specs.Answer.{refusal, first_of};
ghost use Rattle.paper_questions.specs.Place.{fields_at};
ghost use Rattle.paper_index.specs.Reads.{good_counts, good_section, counts_beside, section_read};

use paper_index::types::SectionRead;
use paper_questions::types::Row;
use paper_record::types::RecordNo;
use questions_first::first::first_refusal;
use questions_numbers::numbers::in_entry;
use questions_places::place::field_at;
use record::system::{count_of, is_count, number_of};
use record_names::identifier::Names;
use rules_limits::limits::announced;

// The two counts of a section's record, or 39 where one is not in form and range.
fn read_counts(entry: &[u8], at: RecordNo, identifier: usize) -> SectionRead
    ensures { result
        ≡ counts_beside (first_of (refusal 39 (not (good_counts identifier (fields_at entry.now at))) ∷ []))
        (fields_at entry.now at) }
{
    let f = field_at(entry, at, 1);
    let a = count_of(f);
    let g = field_at(entry, at, 2);
    let b = count_of(g);
    let refused = SectionRead {
        number: 39,
        n1: 0,
        n2: 0,
    };
    if !is_count(a) {
        return refused;
    }
    if !is_count(b) {
        return refused;
    }
    let n1 = number_of(a);
    let n2 = number_of(b);
    let fault = announced(identifier, n1, n2);
    if fault != 0 {
        return refused;
    }
    SectionRead { number: 0, n1, n2 }
}

// The counts of the record with this identifier, or 39 where it is not there.
fn read_record(entry: &[u8], names: &Names, at: RecordNo, identifier: usize) -> SectionRead
    ensures { result
        ≡ counts_beside (first_of (refusal 39 (not (good_section entry.now at identifier)) ∷ []))
        (fields_at entry.now at) }
{
    let refused = SectionRead {
        number: 39,
        n1: 0,
        n2: 0,
    };
    if !in_entry(entry, at) {
        return refused;
    }
    let f = field_at(entry, at, 0);
    let found = names.identifier_of(f);
    if found != identifier {
        return refused;
    }
    read_counts(entry, at, identifier)
}

// The subentry's first record and the section's: the section's counts, or 32, 33 or 39.
pub fn read_section(entry: &[u8], row: Row, at: RecordNo, identifier: usize) -> SectionRead
    ensures value { result ≡ section_read entry.now row at identifier }
    ensures at_bound { result.number ≡ 0 → at.0 ≤ MOST-RECORDS }
{
    let section = at.0;
    let names = Names::new();
    let number = first_refusal(entry, &names, row);
    if number != 0 {
        return SectionRead {
            number,
            n1: 0,
            n2: 0,
        };
    }
    if section == 0 {
        return SectionRead {
            number: 33,
            n1: 0,
            n2: 0,
        };
    }
    read_record(entry, &names, at, identifier)
}
