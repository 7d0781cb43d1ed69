// Answers to questions as programs write them.

#![tactic(auto)]

use paper_entry::types::Answer;
use paper_number::types::{Decimal, Reading};
use paper_questions::types::{PartAnswer, ValueAnswer};
use paper_walk::types::Given;
use program_text::{say, say_numbers, say_power};

// The number of an answer, and refusal, record and column beside 31.
pub fn say_answer(a: Answer) {
    let record = a.record;
    let all = [
        a.number as u64,
        a.refusal as u64,
        record.0 as u64,
        a.column as u64,
    ];
    say_numbers(b"", &all);
}

fn say_decimal(d: Decimal) {
    if d.negative {
        say(b" number -", d.coefficient);
    } else {
        say(b" number ", d.coefficient);
    }
    io::write_all(1, b" ");
    let power = d.power;
    say_power(power);
}

// What a field says.
pub fn say_reading(r: Reading) {
    match r {
        Reading::Blank => {
            io::write_all(1, b" blank");
        }
        Reading::Number(d) => {
            say_decimal(d);
        }
        Reading::Refused(n) => {
            say(b" refused ", n as u64);
        }
    }
}

// The answer, the value and the count of its digits, as a line.
pub fn say_value(v: ValueAnswer) {
    let a = v.answer;
    let r = v.value;
    let digits = v.digits;
    say_answer(a);
    say_reading(r);
    say(b" ", digits as u64);
    io::write_all(1, b"\n");
}

// A value that a walk gives with its line and column, or that it is done, as a line.
pub fn say_given(given: Option<Given>) {
    match given {
        Some(
            Given {
                line,
                column,
                field,
            },
        ) => {
            let r = field.reading;
            let digits = field.digits;
            let place = [line.0 as u64, column as u64];
            say_numbers(b"", &place);
            say_reading(r);
            say(b" ", digits as u64);
            io::write_all(1, b"\n");
        }
        None => {
            io::write_all(1, b"done\n");
        }
    }
}

// The answer, where the part begins, its length and pointer, and the part itself, as a line.
pub fn say_part(p: PartAnswer, part: &[u8]) {
    let a = p.answer;
    say_answer(a);
    let all = [p.first as u64, p.length as u64, p.pointer as u64];
    say_numbers(b" ", &all);
    io::write_all(1, b" [");
    io::write_all(1, part);
    io::write_all(1, b"]\n");
}
