// What the columns of a field spell.
ghost use Rattle.std.specs.Prelude.{◌≡◌, ◌<◌, ◌≤◌, length, IfSome};
ghost use Rattle.paper_number.specs.Walk.{Leads, spelt};
ghost use Rattle.paper_number.specs.Spelt.{number_spelt, Small, SmallNumber};

use number_walk::walk::{in_fraction, in_gap, in_signed, past_blanks, past_sign};
use paper_number::types::{Spelt, SpeltNumber};

// The number that a field spells, its blanks before column i, if it is one.
fn number_from(s: &[u8], i: usize) -> Option<SpeltNumber>
    requires { Leads s.now i × (length s.now ≤ 11) × (i < length s.now) }
    ensures spelt { number_spelt result ≡ spelt s.now }
    ensures small { IfSome result SmallNumber }
{
    let b = s[i];
    let front = in_signed(s, i + past_sign(b))?;
    let digits = in_fraction(s, front.at, front.number, front.places);
    let exponent = in_gap(s, digits.at)?;
    Some(SpeltNumber {
        negative: b == b'-',
        number: digits.number,
        places: digits.places,
        exponent,
    })
}

// What a field of at most eleven columns spells.
pub fn spelt_in(s: &[u8]) -> Spelt
    requires { length s.now ≤ 11 }
    ensures { (result ≡ spelt s.now) × Small result }
{
    let i = past_blanks(s);
    if i == s.len() {
        return Spelt::Blank;
    }
    match number_from(s, i) {
        Some(number) => Spelt::Number(number),
        None => Spelt::Malformed,
    }
}
