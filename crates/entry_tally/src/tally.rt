// What one record adds to the counts, by what it is.
ghost use Rattle.std.specs.Prelude.{◌≡◌, ◌+◌, ◌-◌, ◌*◌, ◌≤◌, ◌<◌};
ghost use Rattle.paper_rules.specs.Limits.{MOST-RECORDS};
ghost use Rattle.paper_rules.specs.Ranging.{Bounded};
ghost use Rattle.paper_entry.specs.Tally.{one_subentry, one_keyword, more_numbers, open_subentry, open_bib, open_table};
ghost use Rattle.paper_entry.specs.Tally.{text_read, next_row, same_row, headings_read, units_read, values_read};
ghost use Rattle.paper_entry.specs.Tally.{lines_read, numbers_read};

use paper_record::types::LineNo;
use paper_rules::types::{Bib, Subentry, Table, Totals, Track};
use record_words::word::is_keyword_blank;
use rules_roles::roles::{DATA_VALUE, HEADINGS, UNITS, VALUES};
use rules_state::state::{
    row_ends, with_bib, with_section, with_subentry, with_table, with_totals,
};

fn one_subentry(mut totals: Totals) -> Totals
    requires { totals.subentries ≤ MOST-RECORDS }
    ensures { result ≡ one_subentry totals }
{
    totals.subentries += 1;
    totals
}

fn one_keyword(mut totals: Totals) -> Totals
    requires { totals.keywords ≤ MOST-RECORDS }
    ensures { result ≡ one_keyword totals }
{
    totals.keywords += 1;
    totals
}

fn more_numbers(mut totals: Totals, lines: u32, numbers: u32) -> Totals
    requires lines_bound { totals.lines ≤ MOST-RECORDS }
    requires numbers_bound { totals.numbers ≤ MOST-RECORDS * 6 }
    requires lines_bound_2 { lines ≤ 1 }
    requires numbers_bound_2 { numbers ≤ 6 }
    ensures { result ≡ more_numbers totals lines numbers }
{
    totals.lines += lines;
    totals.numbers += numbers;
    totals
}

pub fn open_subentry(t: Track, number: u32) -> Track
    requires { Bounded t }
    ensures { result ≡ open_subentry t number }
{
    let totals = one_subentry(t.totals);
    let subentry = Subentry { number, records: 0 };
    with_subentry(with_totals(t, totals), subentry)
}

pub fn open_bib(t: Track, keywords: u64, records: u64) -> Track
    ensures { result ≡ open_bib t keywords records }
{
    let bib = Bib {
        keywords,
        records,
        met: 0,
    };
    with_bib(with_section(t, 0), bib)
}

pub fn open_table(t: Track, columns: u32, last: u32) -> Track
    ensures { result ≡ open_table t columns last }
{
    let table = Table {
        columns,
        last: LineNo(last),
        row: HEADINGS,
        line: LineNo(1),
        rest: columns,
        blank: true,
    };
    with_table(with_section(t, 0), table)
}

#[tactic(auto, unfolding(paper_entry::specs::Tally::text_read))]
pub fn text_read(t: Track, f: [u8; 11]) -> Track
    requires { Bounded t }
    ensures { result ≡ text_read t f }
{
    if is_keyword_blank(f) {
        return t;
    }
    let totals = one_keyword(t.totals);
    let met = t.bib.met + 1;
    let bib = Bib { met, ..t.bib };
    with_bib(with_totals(t, totals), bib)
}

// The table behind the last record of a row.
fn next_row(x: Table, row: u32, line: LineNo) -> Table
    ensures { result ≡ next_row x row line }
{
    Table {
        row,
        line,
        rest: x.columns,
        blank: true,
        ..x
    }
}

// The table behind another record of a row.
fn same_row(x: Table, row: u32, blank: bool) -> Table
    requires { 6 ≤ x.rest }
    ensures { result ≡ same_row x row blank }
{
    let rest = x.rest - 6;
    Table {
        row,
        rest,
        blank,
        ..x
    }
}

#[tactic(auto, unfolding(paper_entry::specs::Tally::headings_read))]
pub fn headings_read(x: Table) -> Table
    ensures { result ≡ headings_read x }
{
    if x.rest <= 6 {
        next_row(x, UNITS, x.line)
    } else {
        same_row(x, HEADINGS, true)
    }
}

#[tactic(auto, unfolding(paper_entry::specs::Tally::units_read))]
pub fn units_read(x: Table) -> Table
    ensures { result ≡ units_read x }
{
    if x.rest <= 6 {
        next_row(x, VALUES, x.line)
    } else {
        same_row(x, UNITS, true)
    }
}

#[tactic(auto, unfolding(paper_entry::specs::Tally::values_read))]
fn values_read(x: Table, numbers: u32) -> Table
    requires { x.line.0 ≤ MOST-RECORDS }
    ensures { result ≡ values_read x numbers }
{
    if x.rest <= 6 {
        let number = x.line.0 + 1;
        return next_row(x, VALUES, LineNo(number));
    }
    let blank = x.blank && numbers == 0;
    same_row(x, VALUES, blank)
}

fn lines_read(t: Track, role: usize) -> u32
    ensures value { result ≡ lines_read t role }
    ensures upper_bound { result ≤ 1 }
{
    u32::from(role == DATA_VALUE && row_ends(t))
}

pub fn numbers_read(t: Track, role: usize, numbers: u32) -> Track
    requires bounded { Bounded t }
    requires numbers_bound { numbers ≤ 6 }
    ensures { result ≡ numbers_read t role numbers }
{
    let lines = lines_read(t, role);
    let totals = more_numbers(t.totals, lines, numbers);
    let table = values_read(t.table, numbers);
    with_table(with_totals(t, totals), table)
}
