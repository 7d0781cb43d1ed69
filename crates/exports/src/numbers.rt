// Number fields, for host programs.
ghost use Rattle.std.specs.Prelude.{◌≡◌, not, eqb};
ghost use Rattle.paper_number.specs.Value.{value_of};
ghost use Rattle.paper_number.specs.Digits.{number_read};
ghost use Rattle.paper_canonical.specs.Writing.{bytes, writing_refusal};
ghost use Rattle.exports_words.specs.Words.{answer_word};
ghost use Rattle.exports_values.specs.Values.{reading_answer, reading_stored};

use canonical::write::{number_of, write_number};
use exports_values::values::put_reading;
use number_reading::read::read_number;

// What a number field says and how many digits are written in it, stored only where that is a blank or a number.
#[unsafe(no_mangle)]
pub extern "C" fn x4_read_number(field: &[u8], value: &mut [u64; 8]) -> u64
    ensures value { result ≡ answer_word (reading_answer (number_read field.now).reading) }
    ensures value_after { value.new ≡ reading_stored value.old (number_read field.now) }
{
    let said = read_number(field);
    put_reading(said, value)
}

// Writes the canonical field of a value, below zero where `negative` is not 0: 0 done, 40 buffer not eleven bytes, 41 no
// field reads to the value.
#[unsafe(no_mangle)]
pub extern "C" fn x4_write_number(
    negative: u32,
    coefficient: u64,
    power: i32,
    out: &mut [u8],
) -> u32
    ensures value { result ≡ writing_refusal out.old (value_of (not (eqb negative 0)) coefficient power) }
    ensures out_after { out.new ≡ bytes out.old (value_of (not (eqb negative 0)) coefficient power) }
{
    match write_number(negative != 0, coefficient, power, out) {
        Ok(()) => 0,
        Err(e) => u32::from(number_of(e)),
    }
}
