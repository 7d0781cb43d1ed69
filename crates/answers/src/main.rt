// Asks questions of entries. The first character of a line of the input says what it is: `*` and 80 columns, the next
// record of the entry; `!`, a new entry begins; `v`, `h`, `u`, a value, a heading, a unit: the subentry, the section,
// for a value the line, and the column, ten columns each; `p`, a passage: the subentry in ten columns, the keyword in
// ten, the pointer in one; `w`, a walk: the subentry and the section, ten columns each. Of each question it writes the
// number, what stands beside it, and the answer: the value and the count of its digits, or the first byte, the length,
// the pointer and the part.

#![tactic(auto)]

use paper_record::types::LineNo;
use program_answer::{say_answer, say_given, say_part, say_value};
use program_text::{find, number_in};
use questions::ask::{heading, heading_part, passage, passage_part, unit, unit_part, value};
use walk::walk::one_on;
use walk_start::start::start;

fn ask_value(entry: &[u8], line: &[u8]) {
    let n = number_in(line, 1, 11);
    let section = number_in(line, 11, 21);
    let row = LineNo(number_in(line, 21, 31));
    let column = number_in(line, 31, 41);
    let v = value(entry, n, section, row, column);
    say_value(v);
}

fn ask_heading(entry: &[u8], line: &[u8]) {
    let n = number_in(line, 1, 11);
    let section = number_in(line, 11, 21);
    let column = number_in(line, 21, 31);
    let p = heading(entry, n, section, column);
    say_part(p, heading_part(entry, n, section, column));
}

fn ask_unit(entry: &[u8], line: &[u8]) {
    let n = number_in(line, 1, 11);
    let section = number_in(line, 11, 21);
    let column = number_in(line, 21, 31);
    let p = unit(entry, n, section, column);
    say_part(p, unit_part(entry, n, section, column));
}

fn ask_passage(entry: &[u8], line: &[u8]) {
    if line.len() < 22 {
        return;
    }
    let n = number_in(line, 1, 11);
    let keyword = [
        line[11], line[12], line[13], line[14], line[15], line[16], line[17], line[18], line[19],
        line[20],
    ];
    let pointer = line[21];
    let p = passage(entry, n, keyword, pointer);
    say_part(p, passage_part(entry, n, keyword, pointer));
}

// A walk: its answer, each value with its line and column, and twice that it is done. No table of these cases has so many.
fn ask_walk(entry: &[u8], line: &[u8]) {
    let n = number_in(line, 1, 11);
    let section = number_in(line, 11, 21);
    let mut walk = start(entry, n, section);
    let a = walk.answer;
    say_answer(a);
    io::write_all(1, b"\n");
    for _ in 0..2000 {
        let step = one_on(entry, walk);
        let given = step.given;
        walk = step.walk;
        say_given(given);
        if given.is_none() {
            let again = one_on(entry, walk);
            let last = again.given;
            say_given(last);
            return;
        }
    }
}

// A question; any other line is passed over.
fn ask(entry: &[u8], line: &[u8], kind: u8) {
    if kind == b'v' {
        ask_value(entry, line);
    }
    if kind == b'h' {
        ask_heading(entry, line);
    }
    if kind == b'u' {
        ask_unit(entry, line);
    }
    if kind == b'p' {
        ask_passage(entry, line);
    }
    if kind == b'w' {
        ask_walk(entry, line);
    }
}

// The record of a line behind the first `used` bytes, where there is room for it.
fn add_record(entry: &mut [u8], used: usize, line: &[u8]) -> usize {
    if line.len() != 81 {
        return used;
    }
    if entry.len() < 81 {
        return used;
    }
    if entry.len() - 81 < used {
        return used;
    }
    let mut i = 0;
    while i < 80 {
        entry[used + i] = line[i + 1];
        i += 1;
    }
    entry[used + 80] = b'\n';
    used + 81
}

// What a line says; how many bytes of the entry are used after it.
fn read_line(entry: &mut [u8], used: usize, line: &[u8]) -> usize {
    if line.len() == 0 {
        return used;
    }
    let kind = line[0];
    if kind == b'!' {
        return 0;
    }
    if kind == b'*' {
        return add_record(entry, used, line);
    }
    if used <= entry.len() {
        ask(&entry[0..used], line, kind);
    }
    used
}

fn read_lines(text: &[u8], entry: &mut [u8]) {
    let mut used = 0;
    let mut from = 0;
    while from < text.len() {
        let end = find(text, from, text.len(), b'\n');
        used = read_line(entry, used, &text[from..end]);
        from = end + 1;
    }
}

fn main() {
    let mut text = [0u8; 60000];
    let mut entry = [0u8; 32400];
    let n = io::read_full(0, &mut text);
    if n <= 60000 {
        read_lines(&text[0..n], &mut entry);
    }
}
