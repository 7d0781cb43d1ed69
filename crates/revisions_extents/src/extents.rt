// The records of a subentry, by their columns 72 to 74, and the date of a record; of any bytes.
ghost use Rattle.std.specs.Prelude.{◌≡◌, ◌+◌, ◌*◌, ◌≤◌, length};
ghost use Rattle.paper_revisions.specs.Extents.{subentry_at, date_at, records_of, first_saying, past_from, extent_of};
ghost use Rattle.paper_record.specs.Text.{within};
ghost use Rattle.paper_rules.specs.Limits.{LAST-SUBENTRY};

use columns::fields::field;
use paper_revisions::types::Extent;
use record::system::{number_in, subentry_of};
use record_words::word::is_within;
use rules_numbers::numbers::LAST_SUBENTRY;

// The number in columns 72 to 74 of the record with this index: the last three of the eleven columns 64 to 74.
pub fn number_at(entry: &[u8], i: usize) -> u32
    requires { (i + 1) * 81 ≤ length entry.now }
    ensures { result ≡ subentry_at entry.now i }
{
    let from = i * 81;
    let past = from + 81;
    let f = field(&entry[from..past], 63);
    subentry_of(f)
}

// The date in N2 of that record as one number; of any bytes it is below 2,300,000,000, so that 32 bits hold it.
pub fn date_at(entry: &[u8], i: usize) -> u32
    requires { (i + 1) * 81 ≤ length entry.now }
    ensures { result ≡ date_at entry.now i }
{
    let from = i * 81;
    let past = from + 81;
    let f = field(&entry[from..past], 22);
    let date = number_in(f, 3, 8);
    date as u32
}

// The first record that says n, or behind the last.
fn first_of(entry: &[u8], n: u32) -> usize
    ensures value { result ≡ first_saying entry.now n }
    ensures upper_bound { result ≤ records_of entry.now }
{
    let records = entry.len() / 81;
    for i in 0..records {
        if number_at(entry, i) == n {
            return i;
        }
    }
    records
}

// The first record from an index on that does not say n, or behind the last.
pub fn past_from(entry: &[u8], from: usize, n: u32) -> usize
    requires { from ≤ records_of entry.now }
    ensures value { result ≡ past_from entry.now n from }
    ensures lower_bound { from ≤ result }
    ensures upper_bound { result ≤ records_of entry.now }
{
    let records = entry.len() / 81;
    for i in from..records {
        if number_at(entry, i) != n {
            return i;
        }
    }
    records
}

// The records of a subentry; none where no record says its number.
pub fn extent(entry: &[u8], n: u32) -> Extent
    ensures { result ≡ extent_of entry.now n }
{
    let from = first_of(entry, n);
    let past = past_from(entry, from, n);
    Extent { from, past }
}

// Whether a subentry may have this number: 000 is ENTRY's, 999 ENDENTRY's.
pub fn is_subentry(n: u32) -> bool
    ensures { result ≡ within 1 LAST-SUBENTRY n }
{
    let number = n as u64;
    is_within(1, LAST_SUBENTRY as u64, number)
}
