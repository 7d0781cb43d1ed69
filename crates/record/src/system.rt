// The fields N1 and N2 of system records.
ghost use Rattle.std.specs.Prelude.{◌≡◌, ℕ, ◌+◌, ◌*◌, ◌^◌, ◌≤◌, ◌||◌};
ghost use Rattle.paper_record.specs.Text.{is_capital, is_digit};
ghost use Rattle.paper_record.specs.System.{digit_of, digits_in, number_in, count_of, is_count, number_of, count_answer, up_to};
ghost use Rattle.paper_record.specs.System.{is_date, is_accession, is_entry_n1, is_subent_n1, subentry_of};

use record_words::word::{blank_to, filled_from, is_within};

// Whether a field is a count, by the name that the definitions have for it.
pub fn is_count(c: Option<u64>) -> bool
    ensures { result ≡ is_count c }
{
    c.is_some()
}

// The number of a count, 0 of a field that is none.
pub fn number_of(c: Option<u64>) -> u64
    ensures { result ≡ number_of c }
{
    c.unwrap_or(0)
}

// Whether the `n` columns from `from` are digits.
pub fn digits_in(f: [u8; 11], from: usize, n: usize) -> bool
    requires { from + n ≤ 11 }
    ensures { result ≡ digits_in f from n }
{
    let end = from + n;
    for i in from..end {
        if !f[i].is_ascii_digit() {
            return false;
        }
    }
    true
}

// The digit that a byte says; what stands below `0` counts as 0.
fn digit_of(b: u8) -> u64
    ensures value { result ≡ digit_of b }
    ensures upper_bound { result ≤ 207 }
{
    u64::from(b.saturating_sub(b'0'))
}

// The number that the `n` columns from `from` say. No byte says more than 207, which is 9 * 23.
pub fn number_in(f: [u8; 11], from: usize, n: usize) -> u64
    requires { from + n ≤ 11 }
    ensures value { result ≡ number_in f from n }
    ensures result_bound { result + 23 ≤ 23 * 10 ^ n }
{
    let mut number: u64 = 0;
    for i in 0..n {
        let d = digit_of(f[from + i]);
        number = number * 10 + d;
    }
    number
}

// A count: blanks, then digits up to the last column; or a field that is none.
pub fn count_of(f: [u8; 11]) -> Option<u64>
    ensures value { result ≡ count_of f }
    ensures result_value { count_answer result ≡ count_answer (count_of f) }
{
    let start = filled_from(f, 0, 11);
    if start == 11 {
        return None;
    }
    let n = 11 - start;
    if !digits_in(f, start, n) {
        return None;
    }
    let number = number_in(f, start, n);
    Some(number)
}

// A number, 0 where it is more than `most`.
pub fn up_to(most: u32, n: u64) -> u32
    ensures value { result ≡ up_to most n }
    ensures upper_bound { result ≤ most }
{
    if n <= u64::from(most) { n as u32 } else { 0 }
}

// A count, 0 where it is more than `most`.
pub fn count_to(most: u32, f: [u8; 11]) -> u32
    ensures value { result ≡ up_to most (number_of (count_of f)) }
    ensures upper_bound { result ≤ most }
{
    up_to(most, number_of(count_of(f)))
}

// Whether a field is a date: three blanks and YYYYMMDD.
pub fn is_date(f: [u8; 11]) -> bool
    ensures { result ≡ is_date f }
{
    blank_to(f, 3)
        && digits_in(f, 3, 8)
        && is_within(1, 12, number_in(f, 7, 2))
        && is_within(1, 31, number_in(f, 9, 2))
}

// Whether the five columns from `at` are an accession.
fn is_accession(f: [u8; 11], at: usize) -> bool
    requires { at + 5 ≤ 11 }
    ensures { result ≡ is_accession f at }
{
    is_capital_or_digit(f[at]) && digits_in(f, at + 1, 4)
}

// Whether a byte is a capital or a digit.
pub fn is_capital_or_digit(b: u8) -> bool
    ensures { result ≡ is_capital b || is_digit b }
{
    b.is_ascii_uppercase() || b.is_ascii_digit()
}

// Whether a field is ENTRY's N1.
pub fn is_entry_n1(f: [u8; 11]) -> bool
    ensures { result ≡ is_entry_n1 f }
{
    blank_to(f, 6) && is_accession(f, 6)
}

// Whether a field is the N1 of SUBENT or NOSUBENT.
pub fn is_subent_n1(f: [u8; 11]) -> bool
    ensures { result ≡ is_subent_n1 f }
{
    blank_to(f, 3) && is_accession(f, 3) && digits_in(f, 8, 3)
}

// The subentry's number in the N1 of SUBENT or NOSUBENT; of any bytes it is at most 22,977.
pub fn subentry_of(f: [u8; 11]) -> u32
    ensures value { result ≡ subentry_of f }
    ensures upper_bound { result ≤ 22977 }
{
    let number = number_in(f, 8, 3);
    number as u32
}
