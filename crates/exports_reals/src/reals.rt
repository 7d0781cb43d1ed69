// Number fields as doubles, for host programs.
ghost use Rattle.std.specs.Prelude.{◌≡◌};
ghost use Rattle.paper_number.specs.Digits.{number_read};
ghost use Rattle.paper_double.specs.Double.{doubled};
ghost use Rattle.exports_simple.specs.Doubles.{field_word, double_stored};

use double::convert::doubled;
use exports_simple::simple::put_double;
use exports_simple_words::words::field_word_of;
use number_reading::read::read_number;

// What a number field says, stored where it is a double; the word tells which of the three it is.
#[unsafe(no_mangle)]
pub extern "C" fn x4_read_double(field: &[u8], value: &mut [f64; 1]) -> u64
    ensures value { result ≡ field_word (number_read field.now) }
    ensures value_after { value.new ≡ double_stored value.old (doubled (number_read field.now).reading) }
{
    let said = read_number(field);
    let reading = said.reading;
    let simple = doubled(reading);
    put_double(simple, value);
    field_word_of(said, simple)
}
