// Words and codes of flags.
ghost use Rattle.std.specs.Prelude.{◌≡◌, ◌&&◌, ◌≤◌, eqb};
ghost use Rattle.laws.specs.Members.{list_of};
ghost use Rattle.paper_number.specs.Grammar.{num};
ghost use Rattle.paper_record.specs.Flags.{is_flag, is_decay_flag, is_flag_heading, code_digits, code_digit, is_code};
ghost use Rattle.paper_record.specs.Flags.{code_number};
ghost use Rattle.paper_number.specs.Whole.{Short};
ghost use Rattle.paper_record.specs.PlainFlags.{TextColumns};

use record_words::word::equal_to;

// Whether columns 1 to 10 of a field are the word FLAG.
pub fn is_flag(f: [u8; 11]) -> bool
    ensures { result ≡ is_flag f }
{
    equal_to(&f, b"FLAG      ", 10)
}

fn is_decay_flag(f: [u8; 11]) -> bool
    ensures { result ≡ is_decay_flag f }
{
    equal_to(&f, b"DECAY-FLAG", 10)
}

// Whether a heading is FLAG or DECAY-FLAG, with any pointer. The first letter tells most others.
pub fn is_flag_heading(f: [u8; 11]) -> bool
    ensures { result ≡ is_flag_heading f }
{
    is_flag(f) || is_decay_flag(f)
}

// How many digits stand behind the first column.
fn digits_behind(x: &[u8]) -> usize
    requires { TextColumns x.now }
    ensures value { result ≡ code_digits x.now }
    ensures upper_bound { result ≤ 54 }
{
    for j in 0..54 {
        if !x[j + 1].is_ascii_digit() {
            return j;
        }
    }
    54
}

// Whether the first m digits behind the first column make the number n. A number that has passed n stays above it, so
// that no code is too long.
fn says(x: &[u8], m: usize, n: u64) -> bool
    requires { TextColumns x.now × (Short n × (m ≤ code_digits x.now)) }
    ensures { result ≡ eqb n (num (list_of (code_digit x.now) 0 m)) }
{
    let mut number: u64 = 0;
    for j in 0..m {
        let b = x[j + 1];
        let d = u64::from(b - b'0');
        let next = number * 10 + d;
        if n < next {
            return false;
        }
        number = next;
    }
    n == number
}

// Whether the columns 12 to 66 of a record start with the code n.
pub fn is_code_of(x: &[u8], n: u64) -> bool
    requires { TextColumns x.now × Short n }
    ensures { result ≡ (is_code x.now && eqb n (code_number x.now)) }
{
    if x[0] != b'(' {
        return false;
    }
    let m = digits_behind(x);
    m != 0 && m <= 52 && x[m + 1] == b'.' && x[m + 2] == b')' && says(x, m, n)
}
