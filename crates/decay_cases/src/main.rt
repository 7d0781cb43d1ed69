// Asks codes of passages under DECAY-DATA, and their fields; and the fields of bare characters. The input is cases: a
// title, bytes as they are, and a line feed.
//
//     NNNN JJJJJJJJJ RRRR K TITLE
//
// NNNN bytes follow. Where K is c they are the whole records of a passage: its code JJJJJJJJJ is asked for, with a buffer
// of RRRR bytes, each a `~` before. Where K is t they are characters of which the fields are asked. Numbers have leading
// zeros. A title that begins with `#` and three blanks is passed over.
//
// Of each case it writes the title. Of a code: its number, the record's index, the column, the length of the run, and the
// buffer; where the number is 0, the fields of the run. Fields are a line with the number, how far the characters go, flag,
// Z, symbol, A, isomer, half-life, unit and how many groups there are; and a line for each group from 0 to one past the
// last: how many types and energies it has, its abundance, its types and its energies, these from 0 to one past the last
// too. A field is where it begins, its length, its characters and, of a number, its value.

#![tactic(auto)]

mod asking;
mod fields;

use crate::asking::ask_code;
use crate::fields::say_fields;
use program_cases::text_room;
use program_text::{byte_at, find, number_in};

fn answer(title: &[u8], bytes: &[u8]) {
    if byte_at(title, 0) == b'#' {
        return;
    }
    let j = number_in(title, 5, 14);
    let room = number_in(title, 15, 19) as usize;
    let letter = byte_at(title, 20);
    io::write_all(1, title);
    if letter == b'c' {
        ask_code(bytes, j, room);
    } else {
        say_fields(bytes);
    }
    io::write_all(1, b"\n");
}

fn read_cases(text: &[u8]) {
    let mut from = 0;
    while from < text.len() {
        let end = find(text, from, text.len(), b'\n');
        let n = number_in(&text[from..end], 0, 4) as usize;
        if text.len() - end <= n {
            return;
        }
        let first = end + 1;
        let past = first + n;
        answer(&text[from..end], &text[first..past]);
        from = past + 1;
    }
}

fn main() {
    let mut text = text_room();
    let n = io::read_full(0, &mut text);
    read_cases(&text[..n]);
}
