// Says what fields and values are as doubles. The first character of a line of the input says what it is: `f` and the
// columns of a number field; `*` and 80 columns, the next record of the entry; `!`, a new entry begins; `d`, a question
// for a double: the subentry, the section, the line and the column, ten columns each. Of each field it writes `blank`,
// `double` and the sixteen hexadecimal digits of its bits, `decimal` with sign, coefficient and power, or the number
// that it is refused by, and the count of its digits; of each question the number, what stands beside it, and the same.

#![tactic(auto)]

ghost use Rattle.std.specs.Prelude.{not, T};
ghost use Rattle.std.specs.Float.Ieee.{is_nan};
ghost use Rattle.double_cases.specs.Numbers.{is_number};

use double::convert::doubled;
use double_asking::asking::double;
use number_reading::read::read_number;
use paper_double::types::Simple;
use paper_double_asking::types::DoubleAnswer;
use paper_number::types::{Decimal, Reading};
use paper_record::types::LineNo;
use program_answer::say_answer;
use program_text::{find, number_in, say, say_power};

// The bits of a double, sixteen hexadecimal digits.
fn say_double(x: f64)
    requires { T (not (is_nan x)) }
{
    let bits = f64::to_bits(x);
    io::write_all(1, b"double ");
    io::print_hex(1, bits, 16);
}

fn say_outside(d: Decimal) {
    let negative = d.negative;
    let coefficient = d.coefficient;
    let power = d.power;
    if negative {
        say(b"decimal - ", coefficient);
    } else {
        say(b"decimal + ", coefficient);
    }
    io::write_all(1, b" ");
    say_power(power);
}

fn say_simple(value: Simple)
    requires { T (is_number value) }
{
    match value {
        Simple::Blank => {
            io::write_all(1, b"blank");
        }
        Simple::Double(x) => say_double(x),
        Simple::Outside(d) => say_outside(d),
    }
}

fn say_doubled(reading: Reading) {
    let value = doubled(reading);
    say_simple(value);
}

// What a field says, its number as a double, or the number that it is refused by.
fn say_reading(reading: Reading) {
    match reading {
        Reading::Blank => say_doubled(reading),
        Reading::Number(_) => say_doubled(reading),
        Reading::Refused(n) => {
            io::print_decimal(1, n as u64);
        }
    }
}

fn say_digits(digits: u8) {
    say(b" ", digits as u64);
    io::write_all(1, b"\n");
}

fn read_field(field: &[u8]) {
    let read = read_number(field);
    let reading = read.reading;
    let digits = read.digits;
    say_reading(reading);
    say_digits(digits);
}

fn say_asked(asked: DoubleAnswer)
    requires { T (is_number asked.value) }
{
    let answer = asked.answer;
    let value = asked.value;
    let digits = asked.digits;
    say_answer(answer);
    io::write_all(1, b" ");
    say_simple(value);
    say_digits(digits);
}

fn ask_double(entry: &[u8], line: &[u8]) {
    let n = number_in(line, 1, 11);
    let section = number_in(line, 11, 21);
    let row = LineNo(number_in(line, 21, 31));
    let column = number_in(line, 31, 41);
    let asked = double(entry, n, section, row, column);
    say_asked(asked);
}

// The record of a line behind the first `used` bytes, where there is room for it.
fn add_record(entry: &mut [u8], used: usize, line: &[u8]) -> usize {
    if line.len() != 81 {
        return used;
    }
    if entry.len() < 81 {
        return used;
    }
    if entry.len() - 81 < used {
        return used;
    }
    let mut i = 0;
    while i < 80 {
        entry[used + i] = line[i + 1];
        i += 1;
    }
    entry[used + 80] = b'\n';
    used + 81
}

// A field or a question; any other line is passed over.
fn ask(entry: &[u8], line: &[u8], kind: u8) {
    if kind == b'f' {
        if 0 < line.len() {
            read_field(&line[1..]);
        }
    }
    if kind == b'd' {
        ask_double(entry, line);
    }
}

// What a line says; how many bytes of the entry are used after it.
fn read_line(entry: &mut [u8], used: usize, line: &[u8]) -> usize {
    if line.len() == 0 {
        return used;
    }
    let kind = line[0];
    if kind == b'!' {
        return 0;
    }
    if kind == b'*' {
        return add_record(entry, used, line);
    }
    if used <= entry.len() {
        ask(&entry[0..used], line, kind);
    }
    used
}

fn read_lines(text: &[u8], entry: &mut [u8]) {
    let mut used = 0;
    let mut from = 0;
    while from < text.len() {
        let end = find(text, from, text.len(), b'\n');
        used = read_line(entry, used, &text[from..end]);
        from = end + 1;
    }
}

fn main() {
    let mut text = [0u8; 100000];
    let mut entry = [0u8; 32400];
    let n = io::read_full(0, &mut text);
    if n <= 100000 {
        read_lines(&text[0..n], &mut entry);
    }
}
