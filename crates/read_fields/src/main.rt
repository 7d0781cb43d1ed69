// Reads number fields from standard input, a line each, and says what each reads to, `145 e-3` being 145 times ten to the
// power -3, and how many digits are written in it.

#![tactic(auto)]

use number_reading::read::read_number;
use paper_number::types::{Decimal, FieldRead, Reading};
use program_text::{EachPiece, read_full};
use std::fmt;
use std::io::Write;

// How many bytes of the input are read.
const MOST: usize = 65536;

// Columns as a person can read them.
#[derive(Clone, Copy)]
struct Shown<'a>(&'a [u8]);

impl fmt::Display for Shown<'_> {
    fn fmt<W: fmt::Write>(&self, f: &mut fmt::Formatter<W>) -> fmt::Result {
        for &b in self.0 {
            let is_shown = matches!(b, b' '..=b'~');
            f.write_char(if is_shown { char::from(b) } else { '?' })?;
        }
        Ok(())
    }
}

#[derive(Clone, Copy)]
struct Said(Reading);

impl fmt::Display for Said {
    fn fmt<W: fmt::Write>(&self, f: &mut fmt::Formatter<W>) -> fmt::Result {
        match self.0 {
            Reading::Blank => f.write_str("blank"),
            Reading::Number(
                Decimal {
                    negative,
                    coefficient,
                    power,
                },
            ) => {
                let sign = if negative { "-" } else { "" };
                write!(f, "{sign}{coefficient} e{power}")
            }
            Reading::Refused(n) => write!(f, "refused {n}"),
        }
    }
}

fn main(rt: HostRuntime) {
    let mut buffer = [0; MOST];
    let used = read_full(&mut rt.stdin(), &mut buffer);
    let mut stdout = rt.stdout();
    let mut out = EachPiece(&mut stdout);
    for line in buffer[..used].split_inclusive(|b| *b == b'\n') {
        let field = line.strip_suffix(b"\n").unwrap_or(line);
        let FieldRead { reading, digits } = read_number(field);
        let _ = writeln!(out, "[{}] {} digits {digits}", Shown(field), Said(reading));
    }
}
