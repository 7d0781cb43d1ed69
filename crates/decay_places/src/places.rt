// One character of a place behind the nuclide: half-life, types, energies, abundance.
ghost use Rattle.std.specs.Prelude.{◌≡◌};
ghost use Rattle.paper_decay.specs.Scan.{standing, nowhere, half, unit_step, mark_step, behind_number, half_number_step};
ghost use Rattle.paper_decay.specs.Scan.{half_step, type_step, numbers_step, place_step, field_step, is_empty};

use decay_states::numbers::{number_more, number_next, number_whole};
use decay_states::states::{is_capital, is_type, nowhere, standing, to_if};
use number::form::NumberTables;
use paper_decay::types::Scan;

fn half(inner: u8, count: u8) -> Scan
    ensures { result ≡ half inner count }
{
    standing(1, inner, count, false, false)
}

fn in_unit(count: u8, b: u8) -> Scan
    ensures { result ≡ unit_step count b }
{
    if is_capital(b) {
        if count < 10 {
            return half(12, count + 1);
        }
        return nowhere();
    }
    nowhere()
}

fn in_mark(numbers: &NumberTables, count: u8, b: u8) -> Scan
    ensures { result ≡ mark_step count b }
{
    if is_capital(b) {
        return half(12, 2);
    }
    let n = number_next(numbers, 6, count, b);
    number_more(1, n, count, false, false)
}

// Behind a number that may end: an E is the exponent's or the unit's, any other capital the unit's.
fn behind_number(next: u8, count: u8, b: u8) -> Scan
    ensures { result ≡ behind_number next count b }
{
    if next == 6 {
        return number_more(1, 11, count, false, false);
    }
    if is_capital(b) {
        return half(12, 1);
    }
    number_more(1, next, count, false, false)
}

fn in_half_number(numbers: &NumberTables, inner: u8, count: u8, b: u8) -> Scan
    ensures { result ≡ half_number_step inner count b }
{
    let n = number_next(numbers, inner, count, b);
    if number_whole(inner) {
        return behind_number(n, count, b);
    }
    number_more(1, n, count, false, false)
}

fn in_half(numbers: &NumberTables, inner: u8, count: u8, b: u8) -> Scan
    ensures { result ≡ half_step inner count b }
{
    if inner == 12 {
        return in_unit(count, b);
    }
    if inner == 11 {
        return in_mark(numbers, count, b);
    }
    in_half_number(numbers, inner, count, b)
}

fn in_types(inner: u8, again: bool, filled: bool, b: u8) -> Scan
    ensures { result ≡ type_step inner again filled b }
{
    if is_type(b) {
        return standing(2, 1, 0, again, filled);
    }
    if inner == 1 {
        return to_if(b == b'/', standing(2, 0, 0, true, filled));
    }
    nowhere()
}

fn in_numbers(numbers: &NumberTables, s: Scan, b: u8) -> Scan
    ensures { result ≡ numbers_step s b }
{
    let place = s.place;
    let inner = s.inner;
    let count = s.count;
    let again = s.again;
    let filled = s.filled;
    if b == b'/' {
        if place == 3 {
            return to_if(number_whole(inner), standing(3, 0, 0, true, filled));
        }
        return nowhere();
    }
    let n = number_next(numbers, inner, count, b);
    number_more(place, n, count, again, filled)
}

// Whether nothing of the field was read, save blanks.
pub fn is_empty(s: Scan) -> bool
    ensures { result ≡ is_empty s }
{
    if s.again {
        return false;
    }
    if s.inner == 0 {
        return s.count == 0;
    }
    false
}

fn in_place(numbers: &NumberTables, s: Scan, b: u8) -> Scan
    ensures { result ≡ place_step s b }
{
    let place = s.place;
    if place == 1 {
        return in_half(numbers, s.inner, s.count, b);
    }
    if place == 2 {
        return in_types(s.inner, s.again, s.filled, b);
    }
    in_numbers(numbers, s, b)
}

// A blank stays where a field begins.
pub fn in_field(numbers: &NumberTables, s: Scan, b: u8) -> Scan
    ensures { result ≡ field_step s b }
{
    if b == b' ' {
        return to_if(is_empty(s), s);
    }
    in_place(numbers, s, b)
}
