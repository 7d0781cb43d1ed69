// Makes indexes of entries and asks questions by them. The first character of a line of the input says what it is: `*` and 80
// columns, the next record of the entry; `!`, a new entry begins; `=`, characters that stand in the entry from now on, behind
// the record and the column where they begin; `<`, how many bytes the entry has from now on; `m`, make the index in so many
// numbers, which are 7 before: its rows are then the index in hand; `i`, these numbers are the index in hand; `r`, the row of
// a subentry; `v`, `h`, `u`, `p`, a question as in `answers`, by the index in hand. Numbers have ten columns each. Of each
// making it writes the answer, how many rows the entry has and the numbers, of each row its refusal, how many stand before
// it and its four records, of each question what `answers` writes.

#![tactic(auto)]

mod asking;
mod changing;
mod making;

use crate::asking::ask;
use crate::changing::change;
use crate::making::index_of;
use program_text::find;

// How many bytes the entry has, and how many numbers the index in hand.
#[derive(Clone, Copy)]
struct Held {
    used: usize,
    numbers: usize,
}

// A question; any other line is passed over.
fn answer_line(entry: &[u8], index: &[u32], held: Held, line: &[u8], kind: u8) {
    let used = held.used;
    let numbers = held.numbers;
    if entry.len() < used {
        return;
    }
    if index.len() < numbers {
        return;
    }
    ask(&entry[0..used], &index[0..numbers], line, kind);
}

// What a line says, and what is held after it.
fn read_line(entry: &mut [u8], index: &mut [u32], held: Held, line: &[u8]) -> Held {
    if line.len() == 0 {
        return held;
    }
    let kind = line[0];
    let used = change(entry, held.used, line, kind);
    let numbers = index_of(entry, used, index, held.numbers, line, kind);
    let after = Held { used, numbers };
    answer_line(entry, index, after, line, kind);
    after
}

fn read_lines(text: &[u8], entry: &mut [u8], index: &mut [u32]) {
    let mut held = Held {
        used: 0,
        numbers: 0,
    };
    let mut from = 0;
    while from < text.len() {
        let end = find(text, from, text.len(), b'\n');
        held = read_line(entry, index, held, &text[from..end]);
        from = end + 1;
    }
}

fn main() {
    let mut text = [0u8; 100000];
    let mut entry = [0u8; 8100];
    let mut index = [0u32; 60];
    let n = io::read_full(0, &mut text);
    if n <= 100000 {
        read_lines(&text[0..n], &mut entry, &mut index);
    }
}
