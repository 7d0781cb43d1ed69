// What is stored of the fields before the groups, and the word beside them.
ghost use Rattle.std.specs.Prelude.{◌≡◌};
ghost use Rattle.exports_fields.specs.Heads.{head_word, places_numbers, places_stored, half_stored};

use crate::parts::put_value;
use paper_decay_fields::types::Head;

// The most that the word can say of a place stands for more.
fn head_word(h: Head) -> u64
    ensures { result ≡ head_word h }
{
    let number = h.number;
    let at = h.at;
    if at < 1099511627775 {
        return (number as u64) + 16777216 * (at as u64);
    }
    (number as u64) + 18446744073692774400
}

fn places_numbers(h: Head) -> [u64; 15]
    ensures { result ≡ places_numbers h }
{
    let flag = h.flag;
    let z = h.z;
    let symbol = h.symbol;
    let a = h.a;
    let isomer = h.isomer;
    let life = h.half;
    let half = life.part;
    let unit = h.unit;
    [
        flag.first as u64,
        flag.length as u64,
        z.first as u64,
        z.length as u64,
        symbol.first as u64,
        symbol.length as u64,
        a.first as u64,
        a.length as u64,
        isomer.first as u64,
        isomer.length as u64,
        half.first as u64,
        half.length as u64,
        unit.first as u64,
        unit.length as u64,
        h.groups as u64,
    ]
}

// Stores the fields of a code, and returns the word.
pub fn put_head(h: Head, places: &mut [u64; 15], half: &mut [u64; 8]) -> u64
    ensures value { result ≡ head_word h }
    ensures places_after { places.new ≡ places_stored places.old h }
    ensures half_after { half.new ≡ half_stored half.old h }
{
    let number = h.number;
    if number != 0 {
        return head_word(h);
    }
    let life = h.half;
    let reading = life.value;
    *places = places_numbers(h);
    put_value(reading, half);
    head_word(h)
}
