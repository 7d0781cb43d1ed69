// The four questions, each answered on a line of its own.
use cinda::ask::{line, piece, piece_part};
use cinda::back::write_back;
use cinda_check::check::check;
use paper_cinda::types::{CindaNo, Line, LinesAnswer, Mass, Piece};
use paper_number::types::FieldRead;
use program_answer::say_reading;
use program_text::{say, say_numbers};

fn say_answer(word: &[u8], a: LinesAnswer) {
    let n = a.line;
    let all = [a.number as u64, n.0 as u64, a.column as u64];
    say_numbers(word, &all);
}

// Bytes in brackets.
fn say_bytes(all: &[u8]) {
    io::write_all(1, b" [");
    io::write_all(1, all);
    io::write_all(1, b"]");
}

fn say_mass(mass: Mass) {
    match mass {
        Mass::Number(n) => say(b" mass ", n),
        Mass::Many => {
            io::write_all(1, b" many");
        }
    }
}

fn say_energy(energy: FieldRead) {
    let reading = energy.reading;
    let digits = energy.digits;
    say_reading(reading);
    say(b" ", digits as u64);
}

fn say_apart(l: Line) {
    let characters = [
        l.operation,
        l.isomer,
        l.area,
        l.work,
        l.reader,
        l.hierarchy,
        l.kind,
    ];
    let numbers = [l.z, l.block, l.sequence, l.year, l.month];
    let mass = l.mass;
    let least = l.least;
    let greatest = l.greatest;
    say_bytes(&characters);
    say_numbers(b" ", &numbers);
    say_mass(mass);
    say_energy(least);
    say_energy(greatest);
}

pub(crate) fn ask_check(lines: &[u8]) {
    let a = check(lines);
    say_answer(b"\ncheck ", a);
}

pub(crate) fn ask_line(lines: &[u8], n: u32) {
    let asked = line(lines, CindaNo(n));
    let a = asked.answer;
    let l = asked.line;
    say_answer(b"\nline ", a);
    say_apart(l);
}

fn piece_of(letter: u8) -> Piece {
    match letter {
        b'r' => Piece::Reaction,
        b'q' => Piece::Quantity,
        b'i' => Piece::Institute,
        b'c' => Piece::Reference,
        b't' => Piece::Comment,
        _ => Piece::Whole,
    }
}

pub(crate) fn ask_piece(lines: &[u8], n: u32, letter: u8) {
    let asked = piece(lines, CindaNo(n), piece_of(letter));
    let a = asked.answer;
    let place = [asked.first as u64, asked.length as u64];
    say_answer(b"\npart ", a);
    say_numbers(b" ", &place);
    say_bytes(piece_part(lines, CindaNo(n), piece_of(letter)));
}

fn write_in(lines: &[u8], buffer: &mut [u8]) {
    let a = write_back(lines, buffer);
    say_answer(b"\nback ", a);
    say_bytes(buffer);
    io::write_all(1, b"\n");
}

pub(crate) fn ask_back(lines: &[u8], room: usize) {
    let mut buffer = [b'~'; 630];
    if room <= 630 {
        write_in(lines, &mut buffer[0..room]);
    }
}
