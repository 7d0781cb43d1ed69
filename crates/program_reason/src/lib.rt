// A reason as programs write it: one line, or none.

#![tactic(auto)]

use paper_reasons::types::{Facts, Reason};
use program_text::say_line;

// "previous subentry number", three digits.
fn say_previous(number: u32) {
    let digits = [
        b'0' + (number / 100 % 10) as u8,
        b'0' + (number / 10 % 10) as u8,
        b'0' + (number % 10) as u8,
        b'\n',
    ];
    io::write_all(1, &digits);
}

// The eight characters of an identification, the five of a sequence number.
fn say_expected(refusal: u8, c: [u8; 8]) {
    if refusal == 5 {
        io::write_all(1, &c);
        io::write_all(1, b"\n");
        return;
    }
    let line = [c[0], c[1], c[2], c[3], c[4], b'\n'];
    io::write_all(1, &line);
}

// The values alone: two counts, or least and greatest; three digits; record and column; the pointer; the characters.
pub fn say_reason(refusal: u8, reason: Reason) {
    let facts = reason.facts;
    let characters = reason.characters;
    match facts {
        Facts::Alone => {}
        Facts::Count(announced, due) => say_line(b"", &[announced, due]),
        Facts::Range(least, greatest) => say_line(b"", &[least, greatest]),
        Facts::Previous(number) => say_previous(number),
        Facts::Equal(at, column) => say_line(b"", &[at.0 as u64, column as u64]),
        Facts::Pointer(pointer) => {
            io::write_all(1, &[pointer]);
            io::write_all(1, b"\n");
        }
        Facts::Expected => say_expected(refusal, characters),
    }
}
