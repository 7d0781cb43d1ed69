// A code of a passage, with the fields of its run.
use crate::fields::{say_bytes, say_fields};
use decay_code::code::code_in;
use program_text::say_numbers;

fn code_into(passage: &[u8], j: u32, buffer: &mut [u8]) {
    let c = code_in(passage, j, buffer);
    let number = c.number;
    let length = c.length;
    let all = [number as u64, c.at as u64, c.column as u64, length as u64];
    say_numbers(b"\ncode ", &all);
    say_bytes(buffer);
    if number != 0 {
        return;
    }
    if length <= buffer.len() {
        say_fields(&buffer[0..length]);
    }
}

pub(crate) fn ask_code(passage: &[u8], j: u32, room: usize) {
    let mut buffer = [b'~'; 630];
    if room <= 630 {
        code_into(passage, j, &mut buffer[0..room]);
    }
}
