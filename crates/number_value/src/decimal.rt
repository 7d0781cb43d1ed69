// The decimal that sign, digits, places and exponent say.
ghost use Rattle.std.specs.Prelude.{◌≡◌, ◌<◌, ◌≤◌, pos, ◌+ℤ◌, ◌-ℤ◌, Option, IfSome};
ghost use Rattle.paper_number.specs.Walk.{SmallExponent};
ghost use Rattle.paper_number.specs.Spelt.{exponent_spelt};
ghost use Rattle.paper_number.specs.Value.{value_of};

use crate::signed::difference;
use number::value::without_zeros;
use paper_number::types::{Decimal, Exponent, SpeltNumber};

// The exponent less the places behind the point, with the last zeros added.
fn power_of(exponent: Option<Exponent>, places: u32, zeros: u32) -> i32
    requires { IfSome exponent SmallExponent × (places ≤ 11) × (zeros < 20) }
    ensures { result ≡ exponent_spelt exponent -ℤ pos places +ℤ pos zeros }
{
    match exponent {
        Some(Exponent { below: true, size }) => difference(zeros, size + places),
        Some(Exponent { below: false, size }) => difference(size + zeros, places),
        None => difference(zeros, places),
    }
}

pub fn value(x: SpeltNumber) -> Decimal
    requires { (x.places ≤ 11) × IfSome x.exponent SmallExponent }
    ensures { result ≡ value_of x.negative x.number (exponent_spelt x.exponent -ℤ pos x.places) }
{
    if x.number == 0 {
        return Decimal {
            negative: false,
            coefficient: 0,
            power: 0,
        };
    }
    let t = without_zeros(x.number);
    let power = power_of(x.exponent, x.places, t.zeros);
    Decimal {
        negative: x.negative,
        coefficient: t.number,
        power,
    }
}
