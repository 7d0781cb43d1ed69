// One character of a code: the state before it, and behind it.
ghost use Rattle.std.specs.Prelude.{◌≡◌};
ghost use Rattle.paper_decay.specs.Scan.{fresh, nowhere, head, inside_step, is_whole, is_flag_point, close_step, next_place};
ghost use Rattle.paper_decay.specs.Scan.{comma_step, step_of};

use decay_nuclide::nuclide::{head, head_whole, in_head};
use decay_places::places::{in_field, is_empty};
use decay_states::numbers::number_whole;
use decay_states::states::{fresh, nowhere, to_if};
use number::form::NumberTables;
use paper_decay::types::Scan;

fn inside(numbers: &NumberTables, s: Scan, b: u8) -> Scan
    ensures { result ≡ inside_step s b }
{
    let place = s.place;
    if place == 0 {
        return in_head(s.inner, s.count, b);
    }
    if place < 5 {
        return in_field(numbers, s, b);
    }
    nowhere()
}

// Whether the field may end here.
fn is_whole(s: Scan) -> bool
    ensures { result ≡ is_whole s }
{
    let place = s.place;
    let inner = s.inner;
    if place == 0 {
        return head_whole(inner, s.count);
    }
    if place == 1 {
        return 10 < inner;
    }
    if place == 2 {
        return inner == 1;
    }
    number_whole(inner)
}

// Whether the flag's point stands before.
fn is_flag_point(s: Scan) -> bool
    ensures { result ≡ is_flag_point s }
{
    if s.place == 0 {
        return s.inner == 3;
    }
    false
}

// At a closing parenthesis.
fn close(s: Scan) -> Scan
    ensures { result ≡ close_step s }
{
    if is_flag_point(s) {
        return head(4, 0);
    }
    to_if(is_whole(s), fresh(5, false))
}

// Behind a comma: the place that follows, and what the group has.
fn next_place(place: u8, something: bool) -> Scan
    ensures { result ≡ next_place place something }
{
    if place == 0 {
        return fresh(1, false);
    }
    if place == 1 {
        return fresh(2, false);
    }
    if place == 2 {
        return fresh(3, something);
    }
    if place == 3 {
        return fresh(4, something);
    }
    if place == 4 {
        return to_if(something, fresh(2, false));
    }
    nowhere()
}

// At a comma.
fn comma(s: Scan) -> Scan
    ensures { result ≡ comma_step s }
{
    let place = s.place;
    let filled = s.filled;
    if is_whole(s) {
        return next_place(place, true);
    }
    if place == 0 {
        return nowhere();
    }
    if is_empty(s) {
        return next_place(place, filled);
    }
    nowhere()
}

// The state behind one character more.
pub fn step(numbers: &NumberTables, s: Scan, b: u8) -> Scan
    ensures { result ≡ step_of s b }
{
    if b == b',' {
        return comma(s);
    }
    if b == b')' {
        return close(s);
    }
    inside(numbers, s, b)
}
