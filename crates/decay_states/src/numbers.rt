// A number within a code, by the number layer's places: at most eleven characters, and no blank.
ghost use Rattle.std.specs.Prelude.{◌≡◌, ◌≤◌};
ghost use Rattle.paper_decay.specs.Scan.{standing, nowhere, need_of, number_next, number_whole, number_more};

use crate::states::{nowhere, standing};
use number::form::NumberTables;
use paper_decay::types::Scan;

// How many characters a number needs at least from a place of its reading; twelve where it has none or a blank.
fn need_of(inner: u8) -> u8
    ensures { (result ≡ need_of inner) × (result ≤ 12) }
{
    if inner == 4 {
        return 0;
    }
    if inner == 9 {
        return 0;
    }
    if inner < 2 {
        return 2;
    }
    if inner < 4 {
        return 1;
    }
    if inner == 6 {
        return 1;
    }
    if inner == 8 {
        return 1;
    }
    12
}

// Where one character more leads, 10 where no number of at most eleven characters has it there.
pub fn number_next(numbers: &NumberTables, inner: u8, count: u8, b: u8) -> u8
    ensures { result ≡ number_next inner count b }
{
    if b == b' ' {
        return 10;
    }
    if 10 < inner {
        return 10;
    }
    if 10 < count {
        return 10;
    }
    let next = numbers.next_place(inner, b);
    let need = need_of(next);
    if 10 < count + need {
        return 10;
    }
    next
}

// Whether a number may end here.
pub fn number_whole(inner: u8) -> bool
    ensures { result ≡ number_whole inner }
{
    if inner == 4 {
        return true;
    }
    inner == 9
}

// One more character of the number.
pub fn number_more(place: u8, next: u8, count: u8, again: bool, filled: bool) -> Scan
    ensures { result ≡ number_more place next count again filled }
{
    if next == 10 {
        return nowhere();
    }
    if count < 11 {
        return standing(place, next, count + 1, again, filled);
    }
    nowhere()
}
