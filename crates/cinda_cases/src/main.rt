// Checks lines in the CINDA2001 layout, takes one apart, asks for a part of it and writes all of them back. The input is
// cases: a title, the lines as they are, and a line feed.
//
//     NNNN LLLLLLLLL RRRR K TITLE
//
// NNNN bytes of lines follow; line LLLLLLLLL is asked for; its part is K (w whole, r reaction, q quantity, i institute,
// c code of the reference, t text of the comment); the buffer has RRRR bytes, each a `~` before. Numbers have leading
// zeros. A title that begins with `#` and three blanks is passed over.
//
// Of each case it writes the title and, each behind number, line and column, four answers: the check's; the line's
// single characters, its Z, block, sequence, year and month, its A, its energies with their digits; where the part
// stands, its length, and itself; the buffer.

#![tactic(auto)]

mod asking;

use crate::asking::{ask_back, ask_check, ask_line, ask_piece};
use program_cases::text_room;
use program_text::{byte_at, find, number_in};

fn answer(title: &[u8], lines: &[u8]) {
    if byte_at(title, 0) == b'#' {
        return;
    }
    let n = number_in(title, 5, 14);
    let room = number_in(title, 15, 19) as usize;
    let letter = byte_at(title, 20);
    io::write_all(1, title);
    ask_check(lines);
    ask_line(lines, n);
    ask_piece(lines, n, letter);
    ask_back(lines, room);
}

fn read_cases(text: &[u8]) {
    let mut from = 0;
    while from < text.len() {
        let end = find(text, from, text.len(), b'\n');
        let n = number_in(&text[from..end], 0, 4) as usize;
        if text.len() - end <= n {
            return;
        }
        let first = end + 1;
        let past = first + n;
        answer(&text[from..end], &text[first..past]);
        from = past + 1;
    }
}

fn main() {
    let mut text = text_room();
    let n = io::read_full(0, &mut text);
    read_cases(&text[..n]);
}
