// The codes of a BIB, and whether one of them is a number.
ghost use Rattle.std.specs.Prelude.{◌≡◌, cond, ◌++◌, ◌+◌, ◌≤◌, eqb, length};
ghost use Rattle.laws.specs.Members.{any_of};
ghost use Rattle.paper_record.specs.Columns.{columns_at};
ghost use Rattle.paper_record.specs.Word.{blank_to};
ghost use Rattle.paper_record.specs.Flags.{is_flag};
ghost use Rattle.paper_number.specs.Whole.{Short};
ghost use Rattle.paper_rules.specs.Codes.{code_of, codes_of};

use columns::fields::field;
use record_flags::flags::{is_code_of, is_flag};
use record_words::word::is_keyword_blank;

// Whether a record with this keyword place is under FLAG, behind one that is or is not.
fn is_under(before: bool, f: [u8; 11]) -> bool
    ensures { result ≡ cond (blank_to 10 f) before (is_flag f) }
{
    if is_keyword_blank(f) {
        before
    } else {
        is_flag(f)
    }
}

// Whether the text record at `at`, under FLAG or not, has the code n.
fn code_at(part: &[u8], at: usize, under: bool, n: u64) -> bool
    requires { (at + 81 ≤ length part.now) × Short n }
    ensures { result ≡ any_of (eqb n) (code_of under (columns_at at 81 part.now)) }
{
    under && is_code_of(&part[at + 11..at + 66], n)
}

// Whether n is one of the codes of a part of text records.
fn code_in(part: &[u8], n: u64) -> bool
    requires { Short n }
    ensures { result ≡ any_of (eqb n) (codes_of part.now) }
{
    let mut under = false;
    for i in 0..part.len() / 81 {
        let at = i * 81;
        under = is_under(under, field(part, at));
        if code_at(part, at, under, n) {
            return true;
        }
    }
    false
}

// Whether it is one of the codes of this subentry's BIB or of that of 001.
pub fn code_met(bib: &[u8], bib001: &[u8], n: u64) -> bool
    requires { Short n }
    ensures { result ≡ any_of (eqb n) (codes_of bib.now ++ codes_of bib001.now) }
{
    code_in(bib, n) || code_in(bib001, n)
}
