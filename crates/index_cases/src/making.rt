// Lines that say what the index in hand is.
use crate::asking::number_at;
use index_making::making::make_index;
use program_answer::say_answer;
use program_text::{number_in, say};

fn fill(index: &mut [u32]) {
    let mut i: usize = 0;
    while i < index.len() {
        index[i] = 7;
        i += 1;
    }
}

fn say_number(n: u32) {
    say(b" ", n as u64);
}

fn say_all(index: &[u32]) {
    let mut i: usize = 0;
    while i < index.len() {
        say_number(index[i]);
        i += 1;
    }
}

// Makes the index and says it; how many numbers its rows have, none where it is refused.
fn make_in(entry: &[u8], index: &mut [u32]) -> usize {
    fill(index);
    let made = make_index(entry, index);
    let a = made.answer;
    let rows = made.rows;
    let number = a.number;
    say_answer(a);
    say_number(rows);
    say_all(index);
    io::write_all(1, b"\n");
    if number != 0 {
        return 0;
    }
    (rows as usize) * 5
}

fn make(entry: &[u8], used: usize, index: &mut [u32], line: &[u8]) -> usize {
    let count = number_in(line, 1, 11) as usize;
    if entry.len() < used {
        return 0;
    }
    if index.len() < count {
        return 0;
    }
    make_in(&entry[0..used], &mut index[0..count])
}

// The numbers of a line; how many there are.
fn take(index: &mut [u32], line: &[u8]) -> usize {
    let mut i: usize = 0;
    let mut from: usize = 1;
    while from < line.len() {
        if index.len() <= i {
            return i;
        }
        index[i] = number_at(line, from);
        i += 1;
        from += 10;
    }
    i
}

// How many numbers the index in hand has after a line.
pub(crate) fn index_of(
    entry: &[u8],
    used: usize,
    index: &mut [u32],
    numbers: usize,
    line: &[u8],
    kind: u8,
) -> usize {
    if kind == b'm' {
        return make(entry, used, index, line);
    }
    if kind == b'i' {
        return take(index, line);
    }
    numbers
}
