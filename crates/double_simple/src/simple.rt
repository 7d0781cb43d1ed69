// A decimal as a double where it is in the simple range.
ghost use Rattle.std.specs.Prelude.{◌≡◌};
ghost use Rattle.paper_double.specs.Double.{simple_of};
ghost use Rattle.paper_double.specs.Table.{TensLent};

use double_once::once::{divided, signed, times};
use double_tens::tens::rung;
use paper_double::types::Simple;
use paper_number::types::Decimal;

// No number field has a larger coefficient.
const TEN_DIGITS: u64 = 9999999999;

// A decimal as a double; as it is where it is outside the simple range.
pub fn simple_of(t: &[f64; 23], d: Decimal) -> Simple
    requires { TensLent t.now }
    ensures { result ≡ simple_of d }
{
    let negative = d.negative;
    let c = d.coefficient;
    let power = d.power;
    if TEN_DIGITS < c {
        return Simple::Outside(d);
    }
    let k = rung(power);
    if 44 < k {
        return Simple::Outside(d);
    }
    if k < 22 {
        let down = 22 - k;
        let quotient = divided(t, c, down);
        let x = signed(negative, quotient);
        return Simple::Double(x);
    }
    let up = k - 22;
    let product = times(t, c, up);
    let x = signed(negative, product);
    Simple::Double(x)
}
