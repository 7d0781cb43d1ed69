// The whole number that a field says.
ghost use Rattle.std.specs.Prelude.{◌≡◌};
ghost use Rattle.paper_number.specs.Whole.{below_zero, whole_from, whole_read, Few};

use number_spelling::spell::spelt_in;
use paper_number::types::{Spelt, WholeRead};

// Zero is not below zero, however signed.
fn below_zero(negative: bool, number: u64) -> bool
    ensures { result ≡ below_zero negative number }
{
    negative && number != 0
}

// The digits behind the point have to be zeros.
fn whole_from(digits: u64, behind: u32) -> WholeRead
    ensures { result ≡ whole_from behind digits }
{
    let mut number = digits;
    for _ in 0..behind {
        if number % 10 != 0 {
            return WholeRead::Broken;
        }
        number /= 10;
    }
    WholeRead::Whole(number)
}

// What a field of eleven columns says as a whole number.
pub fn whole_read(field: [u8; 11]) -> WholeRead
    ensures value { result ≡ whole_read field }
    ensures few { Few result }
{
    let Spelt::Number(x) = spelt_in(&field) else {
        return WholeRead::NoNumber;
    };
    if x.exponent.is_some() {
        return WholeRead::Raised;
    }
    if below_zero(x.negative, x.number) {
        return WholeRead::Broken;
    }
    whole_from(x.number, x.places)
}
