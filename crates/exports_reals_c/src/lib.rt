// The archive of `exports_reals` for C: number fields and decimals in hand as doubles. Each function has the name, the arguments and
// the promise of one there, and calls it.

#![tactic(auto)]

ghost use Rattle.std.specs.Prelude.{◌≡◌, not, eqb};
ghost use Rattle.paper_double.specs.Double.{simple_said, doubled};
ghost use Rattle.exports_simple.specs.Doubles.{double_in, decimal_simple, field_word, double_stored};
ghost use Rattle.paper_number.specs.Digits.{number_read};

// A decimal in hand, below zero where `negative` is not 0, as a double; 0.0 where it is outside the simple range.
#[unsafe(no_mangle)]
pub extern "C" fn x4_as_double(negative: u32, coefficient: u64, power: i32) -> f64
    ensures { result ≡ double_in (decimal_simple (not (eqb negative 0)) coefficient power) }
{
    exports_reals::hand::x4_as_double(negative, coefficient, power)
}

// Which of the three that is: 1 a double, 2 outside.
#[unsafe(no_mangle)]
pub extern "C" fn x4_as_double_kind(negative: u32, coefficient: u64, power: i32) -> u64
    ensures { result ≡ (simple_said (decimal_simple (not (eqb negative 0)) coefficient power)).kind }
{
    exports_reals::hand::x4_as_double_kind(negative, coefficient, power)
}

// What a number field says, stored where it is a double; the word tells which of the three it is.
#[unsafe(no_mangle)]
pub extern "C" fn x4_read_double(field: &[u8], value: &mut [f64; 1]) -> u64
    ensures value { result ≡ field_word (number_read field.now) }
    ensures value_after { value.new ≡ double_stored value.old (doubled (number_read field.now).reading) }
{
    exports_reals::reals::x4_read_double(field, value)
}
