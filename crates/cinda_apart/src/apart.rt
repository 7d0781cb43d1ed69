// A line taken apart: its numbers, and its single characters as they are.
ghost use Rattle.std.specs.Prelude.{◌≡◌, ◌+◌, ◌≤◌, length};
ghost use Rattle.paper_number.specs.Digits.{field_read};
ghost use Rattle.paper_record.specs.Columns.{columns_at};
ghost use Rattle.paper_record.specs.System.{integer_of, number_of};
ghost use Rattle.paper_cinda.specs.Layout.{WholeLine};
ghost use Rattle.paper_cinda.specs.Apart.{mass_of, line_of, no_line};

use cinda_columns::date::{month_of, year_of};
use cinda_columns::integer::integer_at;
use cinda_columns::nucleus::is_many;
use number_reading::read::read_columns;
use paper_cinda::types::{Line, Mass};
use paper_number::types::{FieldRead, Reading};
use record::system::number_of;

// The number of the integer in w columns behind the first `at`.
fn number_at(line: &[u8], at: usize, w: usize) -> u64
    requires { (w ≤ 11) × (at + w ≤ length line.now) }
    ensures { result ≡ number_of (integer_of w (columns_at at w line.now)) }
{
    let integer = integer_at(line, at, w);
    number_of(integer)
}

// What the energy in the seven columns behind the first `at` says.
fn energy_at(line: &[u8], at: usize) -> FieldRead
    requires { at + 7 ≤ length line.now }
    ensures { result ≡ field_read (columns_at at 7 line.now) }
{
    let past = at + 7;
    read_columns(&line[at..past])
}

// A, or many.
fn mass_of(line: &[u8]) -> Mass
    requires { WholeLine line.now }
    ensures { result ≡ mass_of line.now }
{
    if is_many(line) {
        return Mass::Many;
    }
    let number = number_at(line, 4, 3);
    Mass::Number(number)
}

// All of them.
pub fn line_of(line: &[u8]) -> Line
    requires { WholeLine line.now }
    ensures { result ≡ line_of line.now }
{
    let z = number_at(line, 1, 3);
    let mass = mass_of(line);
    let block = number_at(line, 34, 3);
    let sequence = number_at(line, 37, 2);
    let least = energy_at(line, 41);
    let greatest = energy_at(line, 48);
    let year = year_of(line);
    let month = month_of(line);
    Line {
        operation: line[0],
        z,
        mass,
        isomer: line[7],
        area: line[33],
        block,
        sequence,
        work: line[39],
        reader: line[40],
        least,
        greatest,
        hierarchy: line[55],
        kind: line[56],
        year,
        month,
    }
}

// What a refused question has beside its number: zeros and blanks.
pub fn no_line() -> Line
    ensures { result ≡ no_line }
{
    let blank = Reading::Blank;
    let none = FieldRead {
        reading: blank,
        digits: 0,
    };
    let mass = Mass::Number(0);
    Line {
        operation: b' ',
        z: 0,
        mass,
        isomer: b' ',
        area: b' ',
        block: 0,
        sequence: 0,
        work: b' ',
        reader: b' ',
        least: none,
        greatest: none,
        hierarchy: b' ',
        kind: b' ',
        year: 0,
        month: 0,
    }
}
