// The parts of a canonical field: how many columns they take, and their bytes stored.
ghost use Rattle.std.specs.Prelude.{◌≡◌, [], ◌∷◌, ◌+◌, ◌-◌, ◌*◌, ◌<◌, ◌≤◌, ◌^◌, length};
ghost use Rattle.paper_number.specs.Grammar.{blanks, digits_text, sign_byte, sign_text, tail_text};
ghost use Rattle.paper_canonical.specs.Closed.{digits_n, shift, sign_of, tail_of};
ghost use Rattle.paper_canonical.specs.Storing.{put, one_if, exponent_columns, layout_columns, body_text};
ghost use Rattle.canonical_parts.specs.Once.{exponent_pieces, body_pieces, stored};

use paper_canonical::types::{Exponent, Layout};

fn put_byte(out: &mut [u8], at: usize, b: u8)
    requires { at < length out.old }
    ensures { out.new ≡ put out.old at (b ∷ []) }
{
    out[at] = b;
}

pub fn put_blanks(out: &mut [u8], n: usize)
    requires { n ≤ length out.old }
    ensures { out.new ≡ put out.old 0 (blanks n) }
{
    for b in &mut out[..n] {
        *b = b' ';
    }
}

// The last n digits of v; what stands before them is handed back.
fn put_digits(out: &mut [u8], at: usize, n: usize, v: u64) -> u64
    requires { at + n ≤ length out.old }
    ensures { (result ≡ shift n v) × (out.new ≡ put out.old at (digits_text (digits_n n v))) }
{
    let mut w = v;
    for k in (0..n).rev() {
        out[at + k] = b'0' + (w % 10) as u8;
        w /= 10;
    }
    w
}

// The columns of a sign.
pub fn sign_columns(negative: bool) -> usize
    ensures { result ≡ one_if negative 1 }
{
    if negative { 1 } else { 0 }
}

fn exponent_columns(exponent: Option<Exponent>) -> usize
    requires { exponent_columns exponent ≤ 21 }
    ensures { result ≡ exponent_columns exponent }
{
    match exponent {
        Some(e) => 1 + e.long,
        None => 0,
    }
}

// How many columns a layout takes.
pub fn layout_columns(negative: bool, p: Layout) -> usize
    requires { (p.whole ≤ 100) × ((p.part ≤ 100) × (exponent_columns p.exponent ≤ 21)) }
    ensures { result ≡ layout_columns negative p }
{
    sign_columns(negative) + p.whole + 1 + p.part + exponent_columns(p.exponent)
}

fn sign_byte(below: bool) -> u8
    ensures { result ≡ sign_byte below }
{
    if below { b'-' } else { b'+' }
}

pub fn put_sign(out: &mut [u8], at: usize, negative: bool)
    requires { at + one_if negative 1 ≤ length out.old }
    ensures { out.new ≡ put out.old at (sign_text (sign_of negative)) }
{
    if negative {
        put_byte(out, at, b'-');
    }
}

// The digits before the point, the point, and those behind it.
pub fn put_body(out: &mut [u8], at: usize, whole: usize, part: usize, v: u64)
    requires { at + (whole + (1 + part)) ≤ length out.old }
    ensures out_after { out.new ≡ put out.old at (body_text whole part v) }
    ensures out_after_2 { out.new ≡ stored out.old (body_pieces at whole part v) }
{
    let w = put_digits(out, at + (whole + 1), part, v);
    put_byte(out, at + whole, b'.');
    put_digits(out, at, whole, w);
}

pub fn put_exponent(out: &mut [u8], at: usize, exponent: Option<Exponent>)
    requires { at + exponent_columns exponent ≤ length out.old }
    ensures out_after { out.new ≡ put out.old at (tail_text (tail_of exponent)) }
    ensures out_after_2 { out.new ≡ stored out.old (exponent_pieces at exponent) }
{
    if let Some(e) = exponent {
        put_digits(out, at + 1, e.long, e.size);
        put_byte(out, at, sign_byte(e.below));
    }
}

// The coefficient with its zeros behind it.
pub fn with_zeros(c: u64, zeros: usize) -> u64
    requires { (zeros ≤ 2) × (c * 10 ^ zeros < 2 ^ 64) }
    ensures { result ≡ c * 10 ^ zeros }
{
    match zeros {
        0 => c,
        1 => c * 10,
        _ => c * 100,
    }
}
