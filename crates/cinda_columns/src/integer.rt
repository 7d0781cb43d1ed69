// Whole numbers in the columns of a line: "right-adjusted with blanks in front".
ghost use Rattle.std.specs.Prelude.{◌≡◌, ◌++◌, ◌+◌, ◌-◌, ◌≤◌, length};
ghost use Rattle.paper_number.specs.Grammar.{blanks};
ghost use Rattle.paper_record.specs.Columns.{columns_at};
ghost use Rattle.paper_record.specs.System.{integer_of, is_count};

use record::system::{count_of, is_count};

// `w` columns of a line behind the first `at`, with blanks in front of them.
fn right_adjusted(line: &[u8], at: usize, w: usize) -> [u8; 11]
    requires w_bound { w ≤ 11 }
    requires w_in_bounds { at + w ≤ length line.now }
    ensures { result ≡ blanks (11 - w) ++ columns_at at w line.now }
{
    let front = 11 - w;
    let past = at + w;
    let mut f = [b' '; 11];
    f[front..].copy_from_slice(&line[at..past]);
    f
}

// The whole number in `w` columns of a line behind the first `at`.
pub fn integer_at(line: &[u8], at: usize, w: usize) -> Option<u64>
    requires w_bound { w ≤ 11 }
    requires w_in_bounds { at + w ≤ length line.now }
    ensures { result ≡ integer_of w (columns_at at w line.now) }
{
    let f = right_adjusted(line, at, w);
    count_of(f)
}

// Whether these columns are a whole number.
pub fn is_integer_at(line: &[u8], at: usize, w: usize) -> bool
    requires w_bound { w ≤ 11 }
    requires w_in_bounds { at + w ≤ length line.now }
    ensures { result ≡ is_count (integer_of w (columns_at at w line.now)) }
{
    is_count(integer_at(line, at, w))
}
