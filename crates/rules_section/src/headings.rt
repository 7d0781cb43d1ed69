// The rules for heading and unit records: refusals 11 to 13. Each gives the leftmost column at fault, 0 where there
// is none: `leftmost` (paper_faults) gives that number.
ghost use Rattle.std.specs.Prelude.{◌≡◌, ◌≤◌, cond};
ghost use Rattle.laws.specs.Search.{first};
ghost use Rattle.paper_record.specs.Columns.{Whole};
ghost use Rattle.paper_rules.specs.Ranging.{Stands, seen_of};
ghost use Rattle.paper_rules.specs.Roles.{is_heading, is_unit};
ghost use Rattle.paper_faults.specs.Fault.{leftmost, on};
ghost use Rattle.paper_rules.specs.Repeats.{heading_repeated};
ghost use Rattle.paper_rules.specs.Headings.{rule11_heading, rule12_heading, rule12_unit, rule13};

use paper_rules::types::{Ranges, Track};
use record_faults::faults::{heading_fault, pointer_fault, unit_fault};
use rules_earlier::earlier::equal_heading;
use rules_repeats::repeats::is_clash;
use rules_roles::fault::{field_column, pointer_column};
use rules_roles::ranging::part;
use rules_roles::roles::{DATA_HEADING, is_heading, is_unit};
use rules_state::state::used;

// The first of the first n fields whose heading is repeated where it may not be, or n.
fn repeated_at<'a>(
    in_data: bool,
    common001: &'a [u8],
    common: &'a [u8],
    table: &'a [u8],
    here: &'a [u8],
    fs: [[u8; 11]; 6],
    n: usize,
) -> usize
    requires whole { Whole here.now }
    requires n_bound { n ≤ 6 }
    ensures { result
        ≡ first (heading_repeated in_data common001.now common.now table.now
        here.now fs) 0 n }
{
    for k in 0..n {
        let found = equal_heading(common001, common, table, here, k, fs[k]);
        if is_clash(found, in_data, table, fs, k) {
            return k;
        }
    }
    n
}

// Rule 11 on a heading record.
pub fn rule11_heading(track: Track, role: usize, fs: [[u8; 11]; 6]) -> u8
    ensures { result ≡ leftmost (on (is_heading role) (rule11_heading track fs)) }
{
    if !is_heading(role) {
        return 0;
    }
    pointer_column(pointer_fault(fs, used(track)), 6)
}

pub fn rule12(track: Track, role: usize, fs: [[u8; 11]; 6]) -> u8
    ensures { result
        ≡ leftmost (cond (is_heading role) (rule12_heading track fs) (on (is_unit role) (rule12_unit track fs))) }
{
    if is_heading(role) {
        field_column(heading_fault(fs, used(track)), 6)
    } else if is_unit(role) {
        field_column(unit_fault(fs, used(track)), 6)
    } else {
        0
    }
}

pub fn rule13<'a>(
    track: Track,
    ranges: Ranges,
    before: &'a [u8],
    role: usize,
    fs: [[u8; 11]; 6],
    rec: &'a [u8],
) -> u8
    requires stands { Stands track ranges before.now }
    requires whole { Whole rec.now }
    ensures { result
        ≡ leftmost (on (is_heading role)
        (rule13 (seen_of before.now ranges) track role fs rec.now)) }
{
    if !is_heading(role) {
        return 0;
    }
    let n = used(track);
    let k = repeated_at(
        role == DATA_HEADING,
        part(before, ranges.common001),
        part(before, ranges.common),
        part(before, ranges.table),
        rec,
        fs,
        n,
    );
    field_column(k, n)
}
