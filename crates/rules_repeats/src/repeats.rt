// Headings that repeat: the one to the left, and whether a repetition is outside the list.
ghost use Rattle.std.specs.Prelude.{◌≡◌, [], ◌<◌, get_or};
ghost use Rattle.paper_rules.specs.Repeats.{left_of, clash};

use columns::fields::field;
use paper_rules::types::HeadingPlace;
use record_repeats::repeats::may_repeat;
use record_words::word::same_heading;
use rules_earlier::earlier::headings_in;

// The heading to the left of the field k, also across two records of a row.
fn left_of(table: &[u8], fs: [[u8; 11]; 6], k: usize) -> [u8; 11]
    requires { k < 6 }
    ensures { result ≡ left_of table.now fs k }
{
    if k != 0 {
        return fs[k - 1];
    }
    let n = headings_in(table);
    if n == 0 {
        return [b' '; 11];
    }
    let m = n - 1;
    field(table, m / 6 * 81 + m % 6 * 11)
}

// Whether the heading in the field k may not repeat the one that was found.
#[tactic(auto, unfolding(paper_rules::specs::Repeats::clash))]
pub fn is_clash(
    found: Option<HeadingPlace>,
    in_data: bool,
    table: &[u8],
    fs: [[u8; 11]; 6],
    k: usize,
) -> bool
    requires { k < 6 }
    ensures { result ≡ clash in_data found (get_or fs k []) (left_of table.now fs k) }
{
    match found {
        Some(place) => {
            place.section != 3
                || !may_repeat(in_data, fs[k])
                || !same_heading(fs[k], left_of(table, fs, k))
        }
        None => false,
    }
}
