// A decimal in hand, by its three numbers, as one of the three.
ghost use Rattle.std.specs.Prelude.{◌≡◌, not, ◌&&◌, eqb};
ghost use Rattle.exports_simple.specs.Doubles.{decimal_simple};

use double::convert::doubled;
use paper_double::types::Simple;
use paper_number::types::{Decimal, Reading};

// Whether a decimal in hand is below zero; zero never is.
fn is_below(negative: bool, coefficient: u64) -> bool
    ensures { result ≡ negative && not (eqb coefficient 0) }
{
    if negative {
        return coefficient != 0;
    }
    false
}

// A decimal in hand as one of the three.
pub fn simple_in(negative: bool, coefficient: u64, power: i32) -> Simple
    ensures { result ≡ decimal_simple negative coefficient power }
{
    let below = is_below(negative, coefficient);
    let said = Reading::Number(Decimal {
        negative: below,
        coefficient,
        power,
    });
    doubled(said)
}
