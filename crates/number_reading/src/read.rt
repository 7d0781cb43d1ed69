// Reading a number field.
ghost use Rattle.std.specs.Prelude.{◌≡◌, ◌≤◌, length};
ghost use Rattle.paper_number.specs.Reading.{read_field, read_number, answer};
ghost use Rattle.paper_number.specs.Digits.{field_read, number_read};
ghost use Rattle.paper_number.specs.Spelt.{Small, reading_of, digits_spelt};

use number_digits::digits::significant_digits;
use number_spelling::spell::spelt_in;
use number_value::decimal::value;
use paper_number::types::{FieldRead, Reading, Spelt};

// What that says.
fn reading_of(x: Spelt) -> Reading
    requires { Small x }
    ensures { result ≡ reading_of x }
{
    match x {
        Spelt::Blank => Reading::Blank,
        Spelt::Malformed => Reading::Refused(15),
        Spelt::Number(number) => Reading::Number(value(number)),
    }
}

// How many digits are written there.
fn digits_spelt(x: Spelt) -> u8
    requires { Small x }
    ensures { result ≡ digits_spelt x }
{
    match x {
        Spelt::Blank | Spelt::Malformed => 0,
        Spelt::Number(number) => significant_digits(number.number),
    }
}

// What a field of at most eleven columns says.
pub fn read_narrow(s: &[u8]) -> Reading
    requires { length s.now ≤ 11 }
    ensures { result ≡ read_field s.now }
{
    reading_of(spelt_in(s))
}

// The same of eleven columns.
pub fn read_field(field: [u8; 11]) -> Reading
    ensures value { result ≡ read_field field }
    ensures result_value { answer result ≡ answer (read_field field) }
{
    read_narrow(&field)
}

// What a field of at most eleven columns says, and how many digits are written in it.
pub fn read_columns(s: &[u8]) -> FieldRead
    requires { length s.now ≤ 11 }
    ensures { result ≡ field_read s.now }
{
    let x = spelt_in(s);
    let reading = reading_of(x);
    let digits = digits_spelt(x);
    FieldRead { reading, digits }
}

// The same of eleven columns.
pub fn read_digits(field: [u8; 11]) -> FieldRead
    ensures value { result ≡ field_read field }
    ensures reading_value { answer result.reading ≡ answer (read_field field) }
{
    read_columns(&field)
}

// What a field says and how many digits are written in it, or why it is refused: 40 not eleven bytes, 15 malformed.
pub fn read_number(s: &[u8]) -> FieldRead
    ensures value { result ≡ number_read s.now }
    ensures reading_value { answer result.reading ≡ answer (read_number s.now) }
{
    if s.len() != 11 {
        return FieldRead {
            reading: Reading::Refused(40),
            digits: 0,
        };
    }
    read_columns(s)
}
