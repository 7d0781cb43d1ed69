// Lines that say what the entry is.
use program_text::number_in;
use std::num::{wrapping_add_usize, wrapping_sub_usize};

// Stores nothing past the room that there is, so a place may be any number.
fn put(entry: &mut [u8], at: usize, byte: u8) {
    if at < entry.len() {
        entry[at] = byte;
    }
}

// What the line has from `from` on, at `start` and behind it.
fn put_text(entry: &mut [u8], start: usize, line: &[u8], from: usize) {
    let mut i = from;
    let mut at = start;
    while i < line.len() {
        put(entry, at, line[i]);
        at = wrapping_add_usize(at, 1);
        i += 1;
    }
}

// The record of a line behind the first `used` bytes, where there is room for it.
fn add_record(entry: &mut [u8], used: usize, line: &[u8]) -> usize {
    if line.len() != 81 {
        return used;
    }
    if entry.len() < 81 {
        return used;
    }
    if entry.len() - 81 < used {
        return used;
    }
    put_text(entry, used, line, 1);
    put(entry, used + 80, b'\n');
    used + 81
}

// Characters from a column of a record on.
fn put_characters(entry: &mut [u8], line: &[u8]) {
    let record = number_in(line, 1, 11) as usize;
    let column = number_in(line, 11, 21) as usize;
    let at = wrapping_sub_usize(record * 81 + column, 82);
    put_text(entry, at, line, 21);
}

// How many bytes of the entry are used after a line.
pub(crate) fn change(entry: &mut [u8], used: usize, line: &[u8], kind: u8) -> usize {
    if kind == b'!' {
        return 0;
    }
    if kind == b'<' {
        return number_in(line, 1, 11) as usize;
    }
    if kind == b'*' {
        return add_record(entry, used, line);
    }
    if kind == b'=' {
        put_characters(entry, line);
    }
    used
}
