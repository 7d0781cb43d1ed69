// The rule for values under FLAG and DECAY-FLAG: refusal 17. It gives the leftmost column at fault, 0 where there is
// none: `leftmost` (paper_faults) gives that number.
ghost use Rattle.std.specs.Prelude.{◌≡◌, ◌*◌, ◌≤◌, ◌<◌};
ghost use Rattle.laws.specs.Search.{first};
ghost use Rattle.paper_record.specs.Columns.{columns_at};
ghost use Rattle.paper_record.specs.Flags.{is_flag_heading};
ghost use Rattle.paper_rules.specs.Ranging.{Stands, seen_of};
ghost use Rattle.paper_rules.specs.Roles.{is_value};
ghost use Rattle.paper_faults.specs.Fault.{leftmost, on};
ghost use Rattle.paper_rules.specs.Flags.{records_over, flag_column, flag_wrong, flag_fault, rule17};
ghost use Rattle.rules_flags.specs.Below.{fault_below, starts_flag, letter_in};
ghost use Rattle.rules_flags.specs.Lent.{WholeRecords, Room, RecordAt};

use columns::fields::field;
use number_whole::whole::whole_read;
use paper_number::types::WholeRead;
use paper_rules::types::{Ranges, Track};
use record_flags::flags::{is_flag, is_flag_heading};
use rules_codes::codes::code_met;
use rules_roles::fault::field_column;
use rules_roles::ranging::part;
use rules_roles::roles::is_value;
use rules_state::state::used;

// Where the heading record over a value record stands in the heading records of its table.
fn heading_record(track: Track) -> usize
    ensures value { result ≡ records_over track * 81 }
    ensures record_at { RecordAt result }
{
    let before = track.table.columns.saturating_sub(track.table.rest);
    before as usize / 6 * 81
}

// Whether one of the two words may start with the letter. One load tells most other headings.
fn may_flag(b: u8) -> bool
    ensures { result ≡ starts_flag b }
{
    b == b'F' || b == b'D'
}

// Whether the heading at `at` is FLAG or DECAY-FLAG.
fn is_flag_at(table: &[u8], at: usize) -> bool
    requires { Room table.now at }
    ensures { result ≡ is_flag_heading (columns_at at 11 table.now) }
{
    at < table.len() && may_flag(table[at]) && is_flag_heading(field(table, at))
}

// Whether the field k of a value record stands under FLAG or DECAY-FLAG.
pub fn is_flag_column(track: Track, table: &[u8], k: usize) -> bool
    requires { WholeRecords table.now × (k < 6) }
    ensures { result ≡ flag_column table.now track k }
{
    is_flag_at(table, heading_record(track) + k * 11)
}

// Whether a field under such a heading has an exponent, or is a flag without code.
fn is_wrong(bib: &[u8], bib001: &[u8], h: [u8; 11], f: [u8; 11]) -> bool
    ensures { result ≡ flag_wrong bib.now bib001.now h f }
{
    match whole_read(f) {
        WholeRead::NoNumber => false,
        WholeRead::Raised => true,
        WholeRead::Broken => is_flag(h),
        WholeRead::Whole(n) => is_flag(h) && !code_met(bib, bib001, n),
    }
}

// Whether a field under the heading at `at` is at fault.
fn is_fault_at(bib: &[u8], bib001: &[u8], table: &[u8], at: usize, f: [u8; 11]) -> bool
    requires { Room table.now at }
    ensures { result
        ≡ flag_fault bib.now bib001.now (columns_at at 11 table.now) f }
{
    is_flag_at(table, at) && is_wrong(bib, bib001, field(table, at), f)
}

// The first of the first n fields that is at fault, or n; their headings stand in the record at `from`.
fn first_fault(
    bib: &[u8],
    bib001: &[u8],
    table: &[u8],
    from: usize,
    fs: [[u8; 11]; 6],
    n: usize,
) -> usize
    requires whole_records { WholeRecords table.now }
    requires record_at { RecordAt from × (n ≤ 6) }
    ensures { result
        ≡ first (fault_below bib.now bib001.now table.now from fs) 0 n }
{
    for k in 0..n {
        if is_fault_at(bib, bib001, table, from + k * 11, fs[k]) {
            return k;
        }
    }
    n
}

// Whether a heading of the record at `from` starts with a letter of the two words. Most tables have none, and this is all
// that they cost; with all loads before the first test there is one branch.
#[tactic(auto, unfolding(crate::specs::Below::letter_in))]
fn has_letter(table: &[u8], from: usize) -> bool
    requires { WholeRecords table.now × RecordAt from }
    ensures { result ≡ letter_in table.now from }
{
    if table.len() <= from {
        return false;
    }
    let a = table[from];
    let b = table[from + 11];
    let c = table[from + 22];
    let d = table[from + 33];
    let e = table[from + 44];
    let f = table[from + 55];
    may_flag(a) || may_flag(b) || may_flag(c) || may_flag(d) || may_flag(e) || may_flag(f)
}

pub fn rule17(track: Track, ranges: Ranges, before: &[u8], role: usize, fs: [[u8; 11]; 6]) -> u8
    requires { Stands track ranges before.now }
    ensures { result
        ≡ leftmost (on (is_value role) (rule17 (seen_of before.now ranges) track fs)) }
{
    if !is_value(role) {
        return 0;
    }
    let n = used(track);
    let from = heading_record(track);
    let table = part(before, ranges.table);
    if !has_letter(table, from) {
        return 0;
    }
    let k = first_fault(
        part(before, ranges.bib),
        part(before, ranges.bib001),
        table,
        from,
        fs,
        n,
    );
    field_column(k, n)
}
