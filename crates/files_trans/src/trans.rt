// The form of the record TRANS.
ghost use Rattle.std.specs.Prelude.{◌≡◌, ℕ, ◌+◌, ◌≤◌};
ghost use Rattle.paper_faults.specs.Fault.{leftmost};
ghost use Rattle.paper_files.specs.Outside.{marks_in, is_trans_n1, trans_form};

use record::system::{is_capital_or_digit, is_date};
use record_words::word::blank_to;

// Whether the `n` columns from `from` are capitals or digits.
fn marks_in(f: [u8; 11], from: usize, n: usize) -> bool
    requires { from + n ≤ 11 }
    ensures { result ≡ marks_in f from n }
{
    let end = from + n;
    for i in from..end {
        if !is_capital_or_digit(f[i]) {
            return false;
        }
    }
    true
}

// Whether a field is the N1 of TRANS.
fn is_trans_n1(f: [u8; 11]) -> bool
    ensures { result ≡ is_trans_n1 f }
{
    blank_to(f, 7) && marks_in(f, 7, 4)
}

// The fields N1 and N2 of TRANS.
pub fn trans_form(fs: [[u8; 11]; 6]) -> u8
    ensures { result ≡ leftmost (trans_form fs) }
{
    let f = fs[1];
    if !is_trans_n1(f) {
        return 12;
    }
    let g = fs[2];
    if !is_date(g) {
        return 23;
    }
    0
}
