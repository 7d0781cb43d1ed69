// Lines that ask by the index in hand.
use index_asking::asking::value_by_index;
use index_finding::finding::find_row;
use index_handing::handing::{heading_part_by_index, passage_part_by_index, unit_part_by_index};
use index_parts::parts::{heading_by_index, passage_by_index, unit_by_index};
use paper_record::types::LineNo;
use program_answer::{say_part, say_value};
use program_text::{number_in, say_line};
use std::num::wrapping_add_usize;

// The number in ten columns, which may have ten digits; those of `number_in` have nine.
pub(crate) fn number_at(line: &[u8], from: usize) -> u32 {
    let middle = wrapping_add_usize(from, 5);
    let past = wrapping_add_usize(from, 10);
    let high = number_in(line, from, middle) as u64;
    let low = number_in(line, middle, past) as u64;
    ((high * 100000 + low) % 4294967296) as u32
}

fn ask_row(index: &[u32], line: &[u8]) {
    let n = number_at(line, 1);
    let found = find_row(index, n);
    let row = found.row;
    let first = row.first;
    let bib = row.bib;
    let common = row.common;
    let data = row.data;
    let all = [
        found.number as u64,
        found.before as u64,
        first.0 as u64,
        bib.0 as u64,
        common.0 as u64,
        data.0 as u64,
    ];
    say_line(b"", &all);
}

fn ask_value(entry: &[u8], index: &[u32], line: &[u8]) {
    let n = number_at(line, 1);
    let section = number_at(line, 11);
    let row = LineNo(number_at(line, 21));
    let column = number_at(line, 31);
    let v = value_by_index(entry, index, n, section, row, column);
    say_value(v);
}

fn ask_heading(entry: &[u8], index: &[u32], line: &[u8]) {
    let n = number_at(line, 1);
    let section = number_at(line, 11);
    let column = number_at(line, 21);
    let p = heading_by_index(entry, index, n, section, column);
    say_part(p, heading_part_by_index(entry, index, n, section, column));
}

fn ask_unit(entry: &[u8], index: &[u32], line: &[u8]) {
    let n = number_at(line, 1);
    let section = number_at(line, 11);
    let column = number_at(line, 21);
    let p = unit_by_index(entry, index, n, section, column);
    say_part(p, unit_part_by_index(entry, index, n, section, column));
}

fn ask_passage(entry: &[u8], index: &[u32], line: &[u8]) {
    if line.len() < 22 {
        return;
    }
    let n = number_at(line, 1);
    let keyword = [
        line[11], line[12], line[13], line[14], line[15], line[16], line[17], line[18], line[19],
        line[20],
    ];
    let pointer = line[21];
    let p = passage_by_index(entry, index, n, keyword, pointer);
    say_part(p, passage_part_by_index(entry, index, n, keyword, pointer));
}

// A question; any other line is passed over.
pub(crate) fn ask(entry: &[u8], index: &[u32], line: &[u8], kind: u8) {
    if kind == b'r' {
        ask_row(index, line);
    }
    if kind == b'v' {
        ask_value(entry, index, line);
    }
    if kind == b'h' {
        ask_heading(entry, index, line);
    }
    if kind == b'u' {
        ask_unit(entry, index, line);
    }
    if kind == b'p' {
        ask_passage(entry, index, line);
    }
}
