// A walk over the values of one table, left to right and line by line: plain functions on an entry and a place in it. Each is
// promised for any bytes and any numbers.
ghost use Rattle.std.specs.Prelude.{◌≡◌, ◌≤◌};
ghost use Rattle.paper_number.specs.Digits.{field_read};
ghost use Rattle.paper_questions.specs.Place.{field_of};
ghost use Rattle.paper_walk.specs.Walk.{start_from_row, step_of, given_said};

use columns_places::places::place_of;
use entry_verdict::answer::answer_of;
use number_reading::read::read_number;
use paper_number::types::{FieldRead, Reading};
use paper_questions::types::Row;
use paper_record::types::Place;
use paper_walk::types::{Given, Step, Walk};
use questions_numbers::numbers::{section_in, table_identifier};
use questions_places::place::{has_record, shape_from};
use questions_reads::reads::read_section;
use walk_places::places::{done_walk, onward, stands, walk_from};

// The walk over the row's COMMON (section 1) or DATA (section 2); refused by 32, 33 or 39 it is done.
pub fn start_from_row(entry: &[u8], row: Row, section: u32) -> Walk
    ensures { result ≡ start_from_row entry.now row section }
{
    let at = section_in(row, section);
    let identifier = table_identifier(section);
    let read = read_section(entry, row, at, identifier);
    let number = read.number;
    if number != 0 {
        let refused = answer_of(number);
        return done_walk(refused);
    }
    let n1 = read.n1;
    let n2 = read.n2;
    let shape = shape_from(section, n1, n2);
    walk_from(at, shape)
}

// The value at a place, from the field's own bytes; blank where there is no such record.
fn read_at(entry: &[u8], place: Place) -> FieldRead
    requires { place.field ≤ 5 }
    ensures { result ≡ field_read (field_of entry.now place) }
{
    let at = place.at;
    let k = place.field;
    if !has_record(entry, at) {
        return FieldRead {
            reading: Reading::Blank,
            digits: 0,
        };
    }
    let before = at.0 as usize - 1;
    let first = before * 81;
    let column = k as usize * 11;
    let from = first + column;
    let past = from + 11;
    read_number(&entry[from..past])
}

// What a walk gives, and where it stands then.
pub fn one_on(entry: &[u8], walk: Walk) -> Step
    ensures value { result ≡ step_of entry.now walk }
    ensures given_value { given_said result.given ≡ given_said (step_of entry.now walk).given }
{
    if !stands(walk) {
        return Step { walk, given: None };
    }
    let Walk {
        section,
        columns,
        line,
        column,
        ..
    } = walk;
    let place = place_of(section, columns, line, column);
    let field = read_at(entry, place);
    let next = onward(walk);
    let given = Given {
        line,
        column,
        field,
    };
    Step {
        walk: next,
        given: Some(given),
    }
}
