// What the calls about lines return, and what they store in the numbers that the caller lends.
ghost use Rattle.std.specs.Prelude.{◌≤◌, ◌≡◌};
ghost use Rattle.paper_cinda.specs.Apart.{mass_answer};
ghost use Rattle.exports_lines.specs.Lines.{lines_word, line_numbers, numbers_stored, energy_stored};
ghost use Rattle.exports_lines.specs.Pieces.{places_from, places_stored};

use exports_values::values::put_reading;
use paper_cinda::types::{Line, LineAnswer, LinesAnswer, Mass, PieceAnswer};

// The word of an answer about lines.
pub fn lines_word(a: LinesAnswer) -> u64
    ensures { result ≡ lines_word a }
{
    let number = a.number;
    let column = a.column;
    let at = a.line;
    let line = (at.0 % 16777216) as u64;
    (number as u64) + 65536 * ((column as u64) + 256 * line)
}

// A, 0 where it is many.
fn mass_number(mass: Mass) -> u64
    ensures { result ≡ (mass_answer mass).number }
{
    match mass {
        Mass::Number(number) => number,
        Mass::Many => 0,
    }
}

fn mass_many(mass: Mass) -> u64
    ensures { result ≡ (mass_answer mass).many }
{
    match mass {
        Mass::Number(_) => 0,
        Mass::Many => 1,
    }
}

// A line's numbers and single characters.
fn line_numbers(line: Line) -> [u64; 14]
    ensures { result ≡ line_numbers line }
{
    let mass = line.mass;
    let number = mass_number(mass);
    let many = mass_many(mass);
    [
        line.operation as u64,
        line.z,
        number,
        many,
        line.isomer as u64,
        line.area as u64,
        line.block,
        line.sequence,
        line.work as u64,
        line.reader as u64,
        line.hierarchy as u64,
        line.kind as u64,
        line.year,
        line.month,
    ]
}

// Stores a line that is answered, and returns the word.
pub fn put_line(
    a: LineAnswer,
    numbers: &mut [u64; 14],
    least: &mut [u64; 8],
    greatest: &mut [u64; 8],
) -> u64
    ensures value { result ≡ lines_word a.answer }
    ensures numbers_after { numbers.new ≡ numbers_stored numbers.old a }
    ensures least_after { least.new ≡ energy_stored least.old a.answer a.line.least }
    ensures greatest_after { greatest.new ≡ energy_stored greatest.old a.answer a.line.greatest }
{
    let answer = a.answer;
    let line = a.line;
    if answer.number != 0 {
        return lines_word(answer);
    }
    let lower = line.least;
    let upper = line.greatest;
    *numbers = line_numbers(line);
    put_reading(lower, least);
    put_reading(upper, greatest);
    lines_word(answer)
}

// The six places, from the first byte of the whole line.
fn places_from(first: u64) -> [u64; 12]
    requires { first ≤ 2520000 }
    ensures { result ≡ places_from first }
{
    [
        first,
        126,
        first + 8,
        15,
        first + 23,
        4,
        first + 27,
        6,
        first + 57,
        22,
        first + 85,
        40,
    ]
}

// Stores the places of a line and its texts where the whole line is answered, and returns the word.
pub fn put_pieces(whole: PieceAnswer, places: &mut [u64; 12]) -> u64
    requires { whole.first ≤ 2520000 }
    ensures value { result ≡ lines_word whole.answer }
    ensures places_after { places.new ≡ places_stored places.old whole }
{
    let answer = whole.answer;
    let first = whole.first;
    let refusal = answer.number;
    if refusal != 0 {
        return lines_word(answer);
    }
    *places = places_from(first as u64);
    lines_word(answer)
}
