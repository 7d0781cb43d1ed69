// The walk over a field, column by column: one function for each place where it can stand. Each hands on no more than
// the rest of the reading needs, and `None` where the columns fit nothing.
ghost use Rattle.std.specs.Prelude.{◌≡◌, ◌≢◌, ◌+◌, ◌*◌, ◌<◌, ◌≤◌, ◌^◌, length, slice_index};
ghost use Rattle.paper_number.specs.Reading.{Signed, Whole, Point, Gap, Mark, PowerSign};
ghost use Rattle.paper_number.specs.Walk.{past_sign, Reached, DigitAt, Skips, Counts, Raises, Tails, Points, Passes, Leads};

use paper_number::types::{Exponent, Front};

// ---- blanks and digits

// The first column from `from` on that is not blank, or the end.
fn blanks_from(s: &[u8], from: usize) -> usize
    requires { from ≤ length s.now }
    ensures { Skips s.now from result }
{
    for i in from..s.len() {
        if s[i] != b' ' {
            return i;
        }
    }
    s.len()
}

// The digit in column i, if one is there.
fn digit_at(s: &[u8], i: usize) -> Option<u8>
    ensures { DigitAt s.now i result }
{
    let b = *s.get(i)?;
    if b.is_ascii_digit() {
        Some(b - b'0')
    } else {
        None
    }
}

// The column behind the digits from `from` on, and the number that they say behind `first`.
fn digits_from(s: &[u8], from: usize, first: u64) -> (usize, u64)
    requires { Reached s.now from × (first < 10 ^ from) }
    ensures { Counts s.now from first result.0 result.1 }
{
    let mut number = first;
    for i in from..s.len() {
        let Some(d) = digit_at(s, i) else {
            return (i, number);
        };
        number = number * 10 + u64::from(d);
    }
    (s.len(), number)
}

// ---- behind the digits

// Digits, at least one, up to the end.
fn in_power_sign(s: &[u8], i: usize, below: bool) -> Option<Exponent>
    requires { Reached s.now i × (3 ≤ i) }
    ensures { Raises s.now i (λ m. PowerSign m below) result }
{
    let first = digit_at(s, i)?;
    let (end, number) = digits_from(s, i + 1, u64::from(first));
    if end < s.len() {
        return None;
    }
    let size = number as u32;
    Some(Exponent { below, size })
}

fn in_mark(s: &[u8], i: usize) -> Option<Exponent>
    requires { Reached s.now i × (3 ≤ i) }
    ensures { Raises s.now i (λ m. Mark m) result }
{
    let b = *s.get(i)?;
    match b {
        b'-' => in_power_sign(s, i + 1, true),
        b'+' => in_power_sign(s, i + 1, false),
        _ => in_power_sign(s, blanks_from(s, i), false),
    }
}

fn in_exponent(s: &[u8], i: usize) -> Option<Exponent>
    requires { Reached s.now i × (2 ≤ i) × (i < length s.now) × (slice_index s.now i ≢ 32) }
    ensures { Raises s.now i (λ m. Gap m) result }
{
    match s[i] {
        b'E' => in_mark(s, i + 1),
        b'-' => in_power_sign(s, i + 1, true),
        b'+' => in_power_sign(s, i + 1, false),
        _ => None,
    }
}

// The exponent behind the digits, if one is written: `Some(None)` where none is.
pub fn in_gap(s: &[u8], from: usize) -> Option<Option<Exponent>>
    requires { Reached s.now from × (2 ≤ from) }
    ensures { Tails s.now from result }
{
    let i = blanks_from(s, from);
    if i == s.len() {
        return Some(None);
    }
    let x = in_exponent(s, i)?;
    Some(Some(x))
}

// ---- the digits

pub fn in_fraction(s: &[u8], from: usize, first: u64, behind: u32) -> Front
    requires { Reached s.now from × ((first < 10 ^ from) × (behind ≤ from)) }
    ensures { Passes s.now from first behind result }
{
    let (at, number) = digits_from(s, from, first);
    let places = behind + (at - from) as u32;
    Front { at, number, places }
}

fn in_whole(s: &[u8], from: usize, first: u8) -> Option<Front>
    requires { Reached s.now from × (first ≤ 9) × (1 ≤ from) }
    ensures { Points s.now from (λ g. Whole g first) result }
{
    let (end, number) = digits_from(s, from, u64::from(first));
    let b = *s.get(end)?;
    if b != b'.' {
        return None;
    }
    Some(Front {
        at: end + 1,
        number,
        places: 0,
    })
}

fn in_point(s: &[u8], i: usize) -> Option<Front>
    requires { Reached s.now i × (1 ≤ i) }
    ensures { Points s.now i (λ g. Point g) result }
{
    let d = digit_at(s, i)?;
    Some(Front {
        at: i + 1,
        number: u64::from(d),
        places: 1,
    })
}

pub fn in_signed(s: &[u8], i: usize) -> Option<Front>
    requires { Reached s.now i }
    ensures { Points s.now i (λ g. Signed g) result }
{
    if let Some(d) = digit_at(s, i) {
        return in_whole(s, i + 1, d);
    }
    let b = *s.get(i)?;
    if b != b'.' {
        return None;
    }
    in_point(s, i + 1)
}

// ---- the field

pub fn past_sign(b: u8) -> usize
    ensures { result ≡ past_sign b }
{
    match b {
        b'-' | b'+' => 1,
        _ => 0,
    }
}

pub fn past_blanks(s: &[u8]) -> usize
    ensures { Leads s.now result }
{
    blanks_from(s, 0)
}
