// The bytes of a case, and what a line changes in them.
ghost use Rattle.std.specs.Prelude.{◌≤◌};

use program_text::{byte_at, number_in};
use std::num::{wrapping_add_usize, wrapping_sub_usize};

const RECORD: usize = 81;

// Stores nothing past the room that there is, so a place may be any number.
fn put(space: &mut [u8], at: usize, byte: u8) {
    if at < space.len() {
        space[at] = byte;
    }
}

// How many bytes stand before a column of the nth record.
fn place(nth: usize, column: usize) -> usize
    requires nth_bound { nth ≤ 999999999 }
    requires column_bound { column ≤ 999999999 }
{
    wrapping_sub_usize(nth * RECORD + column, RECORD + 1)
}

fn byte_of(n: u32) -> u8 {
    (n % 256) as u8
}

// Puts a record at `at`: 80 columns from `from` of the line, and a line feed. Hands back where it ends.
pub(crate) fn put_record(line: &[u8], from: usize, space: &mut [u8], at: usize) -> usize {
    let mut column: usize = 0;
    while column < 80 {
        let byte = byte_at(line, wrapping_add_usize(from, column));
        put(space, wrapping_add_usize(at, column), byte);
        column += 1;
    }
    put(space, wrapping_add_usize(at, 80), b'\n');
    wrapping_add_usize(at, RECORD)
}

// Puts what the line has from `from` on, up to a bar.
fn put_text(line: &[u8], from: usize, space: &mut [u8], at: usize) {
    let mut i = from;
    let mut to = at;
    while i < line.len() {
        if line[i] == b'|' {
            return;
        }
        put(space, to, line[i]);
        to = wrapping_add_usize(to, 1);
        i += 1;
    }
}

// Puts the whole entry into the case, from the byte `at` on.
pub(crate) fn begin(whole: &[u8], length: usize, case: &mut [u8], at: usize) {
    let mut i: usize = 0;
    while i < length {
        put(case, wrapping_add_usize(at, i), byte_at(whole, i));
        i += 1;
    }
}

// Moves what stands from one record on to the left, over that record.
fn leave_out(case: &mut [u8], start: usize, length: usize) -> usize {
    let mut i = start;
    while i < length {
        let byte = byte_at(case, wrapping_add_usize(i, RECORD));
        put(case, i, byte);
        i += 1;
    }
    wrapping_sub_usize(length, RECORD)
}

// Moves what stands from one record on to the right, by so many bytes.
fn make_room(case: &mut [u8], start: usize, length: usize, by: usize) -> usize {
    let mut i = length;
    while i > start {
        i -= 1;
        let byte = byte_at(case, i);
        put(case, wrapping_add_usize(i, by), byte);
    }
    wrapping_add_usize(length, by)
}

// Puts the whole entry before the record that the line names, and hands back the case's length.
pub(crate) fn insert(
    line: &[u8],
    whole: &[u8],
    entry: usize,
    case: &mut [u8],
    length: usize,
) -> usize {
    let record = number_in(line, 1, 6) as usize;
    let start = place(record, 1);
    let grown = make_room(case, start, length, entry);
    begin(whole, entry, case, start);
    grown
}

// Line feeds stand where a case is made longer.
fn resize(case: &mut [u8], length: usize, wanted: usize) -> usize {
    let mut i = length;
    while i < wanted {
        put(case, i, b'\n');
        i += 1;
    }
    wanted
}

fn put_unknown(line: &[u8]) {
    io::write_all(1, b"? ");
    io::write_all(1, line);
    io::write_all(1, b"\n");
}

// Makes the change that a line of this kind asks for, and hands back the case's length.
pub(crate) fn change(kind: u8, line: &[u8], case: &mut [u8], length: usize) -> usize {
    let record = number_in(line, 1, 6) as usize;
    let column = number_in(line, 7, 10) as usize;
    let start = place(record, 1);
    let at = place(record, column);
    match kind {
        b'=' => put_text(line, 11, case, at),
        b'@' => put(case, at, byte_of(number_in(line, 11, 14))),
        b'-' => {
            return leave_out(case, start, length);
        }
        b'+' => {
            let grown = make_room(case, start, length, RECORD);
            put_record(line, 7, case, start);
            return grown;
        }
        b'<' => {
            return resize(case, length, number_in(line, 1, 8) as usize);
        }
        b'#' | b' ' => {}
        _ => put_unknown(line),
    }
    length
}
