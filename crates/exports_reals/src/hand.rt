// A decimal in hand as a double, for host programs.
ghost use Rattle.std.specs.Prelude.{◌≡◌, not, eqb};
ghost use Rattle.paper_double.specs.Double.{simple_said};
ghost use Rattle.exports_simple.specs.Doubles.{double_in, decimal_simple};

use exports_hand::hand::simple_in;
use exports_simple::simple::{double_in, kind_of};

// A decimal in hand, below zero where `negative` is not 0, as a double; 0.0 where it is outside the simple range.
#[unsafe(no_mangle)]
pub extern "C" fn x4_as_double(negative: u32, coefficient: u64, power: i32) -> f64
    ensures { result ≡ double_in (decimal_simple (not (eqb negative 0)) coefficient power) }
{
    let below = negative != 0;
    let value = simple_in(below, coefficient, power);
    double_in(value)
}

// Which of the three that is: 1 a double, 2 outside.
#[unsafe(no_mangle)]
pub extern "C" fn x4_as_double_kind(negative: u32, coefficient: u64, power: i32) -> u64
    ensures { result ≡ (simple_said (decimal_simple (not (eqb negative 0)) coefficient power)).kind }
{
    let minus = negative != 0;
    let value = simple_in(minus, coefficient, power);
    kind_of(value)
}
