// Characters of a code, and the states of its reading.
ghost use Rattle.std.specs.Prelude.{◌≡◌};
ghost use Rattle.paper_record.specs.Text.{is_digit, is_capital};
ghost use Rattle.paper_decay.specs.Characters.{is_type};
ghost use Rattle.paper_decay.specs.Scan.{standing, fresh, nowhere, to_if};

use paper_decay::types::Scan;
use record_words::word::is_from;

pub fn is_digit(b: u8) -> bool
    ensures { result ≡ is_digit b }
{
    is_from(b'0', b'9', b)
}

pub fn is_capital(b: u8) -> bool
    ensures { result ≡ is_capital b }
{
    is_from(b'A', b'Z', b)
}

// A type's character: capitals, digits, + and -.
pub fn is_type(b: u8) -> bool
    ensures { result ≡ is_type b }
{
    if is_capital(b) {
        return true;
    }
    if is_digit(b) {
        return true;
    }
    if b == b'+' {
        return true;
    }
    b == b'-'
}

pub fn standing(place: u8, inner: u8, count: u8, again: bool, filled: bool) -> Scan
    ensures { result ≡ standing place inner count again filled }
{
    Scan {
        place,
        inner,
        count,
        again,
        filled,
    }
}

// At the start of a place.
pub fn fresh(place: u8, filled: bool) -> Scan
    ensures { result ≡ fresh place filled }
{
    standing(place, 0, 0, false, filled)
}

// No code goes on from here.
pub fn nowhere() -> Scan
    ensures { result ≡ nowhere }
{
    standing(6, 0, 0, false, false)
}

pub fn to_if(t: bool, s: Scan) -> Scan
    ensures { result ≡ to_if t s }
{
    if t { s } else { nowhere() }
}
