// What is stored of one field of a code: its place, and of a number its value.
ghost use Rattle.std.specs.Prelude.{◌≡◌};
ghost use Rattle.exports_fields.specs.Parts.{part_stored, part_word, value_stored};

use exports_values::values::put_reading;
use paper_decay_fields::types::{NumberPart, Part};
use paper_number::types::{FieldRead, Reading};

// Stores a value, whose digits are not counted.
pub fn put_value(reading: Reading, out: &mut [u64; 8])
    ensures { out.new ≡ value_stored reading }
{
    let field = FieldRead { reading, digits: 0 };
    *out = [0; 8];
    put_reading(field, out);
}

// Stores a place, and returns whether there is one.
pub fn put_part(p: Part, place: &mut [u64; 2]) -> u64
    ensures value { result ≡ part_word p }
    ensures place_after { place.new ≡ part_stored p }
{
    let first = p.first;
    let length = p.length;
    *place = [first as u64, length as u64];
    if length == 0 {
        return 0;
    }
    1
}

// The same of a number, and stores its value.
pub fn put_number_part(n: NumberPart, place: &mut [u64; 2], value: &mut [u64; 8]) -> u64
    ensures value { result ≡ part_word n.part }
    ensures place_after { place.new ≡ part_stored n.part }
    ensures value_after { value.new ≡ value_stored n.value }
{
    let part = n.part;
    let reading = n.value;
    put_value(reading, value);
    put_part(part, place)
}
