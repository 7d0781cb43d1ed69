// The search for an earlier heading that is equal, section by section.
ghost use Rattle.std.specs.Prelude.{◌≡◌, ◌+◌, ◌*◌, ◌/◌, ◌%◌, ◌≤◌, ◌<◌};
ghost use Rattle.paper_record.specs.Columns.{Whole};
ghost use Rattle.paper_rules.specs.Earlier.{headings_in, earlier, part_of, heading_count, Left, FAR, Near};
ghost use Rattle.paper_rules.specs.Earlier.{heading_found, equal_heading};

use columns::fields::field;
use paper_rules::types::HeadingPlace;
use record_words::word::same_heading;

// The headings of a part of heading records, six to a record.
pub fn headings_in(part: &[u8]) -> usize
    ensures value { result ≡ headings_in part.now }
    ensures upper_bound { result < FAR }
{
    part.len() / 81 * 6
}

// The earlier headings, section by section: the COMMON of 001, this COMMON, the section in hand, the record in hand.
fn part_of<'a>(
    common001: &'a [u8],
    common: &'a [u8],
    table: &'a [u8],
    here: &'a [u8],
    s: usize,
) -> &'a [u8]
    ensures { result.now
        ≡ part_of (earlier common001.now common.now table.now here.now 0)
        s }
{
    match s {
        0 => common001,
        1 => common,
        2 => table,
        _ => here,
    }
}

// How many of the headings of a section count: in the record in hand those to the left.
fn headings_of(part: &[u8], left: usize, s: usize) -> usize
    requires { Left part.now left s }
    ensures value { result ≡ heading_count part.now left s }
    ensures upper_bound { result ≤ headings_in part.now }
    ensures upper_bound_2 { result < FAR }
{
    if s == 3 { left } else { headings_in(part) }
}

// Where a heading stands that was found at m in a section; `before` are those of the section in hand.
fn place_of(before: usize, s: usize, m: usize) -> HeadingPlace
    requires { Near before s m }
    ensures { result ≡ heading_found before s m }
{
    if s == 3 {
        HeadingPlace {
            section: 3,
            column: before + (m + 1),
        }
    } else {
        HeadingPlace {
            section: s + 1,
            column: m + 1,
        }
    }
}

// The first earlier heading that is equal to f. The search ends there.
pub fn equal_heading<'a>(
    common001: &'a [u8],
    common: &'a [u8],
    table: &'a [u8],
    here: &'a [u8],
    left: usize,
    f: [u8; 11],
) -> Option<HeadingPlace>
    requires whole { Whole here.now }
    requires left_bound { left ≤ 6 }
    ensures { result
        ≡ equal_heading f
        (earlier common001.now common.now table.now here.now left) }
{
    let before = headings_in(table);
    let mut found = None;
    'sections: for s in 0..4 {
        let part = part_of(common001, common, table, here, s);
        for m in 0..headings_of(part, left, s) {
            if same_heading(f, field(part, m / 6 * 81 + m % 6 * 11)) {
                found = Some(place_of(before, s, m));
                break 'sections;
            }
        }
    }
    found
}
