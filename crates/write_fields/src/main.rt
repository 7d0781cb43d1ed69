// Writes many decimals, reads each field back and writes it again: some fields, then counts and checksums.

#![tactic(auto)]

use canonical::write::{number_of, write_number};
use number_reading::read::read_number;
use paper_number::types::{Decimal, Reading};
use program_text::EachPiece;
use std::fmt;
use std::io::{self, Write};

// Coefficients of one digit, of two, and so on.
const COEFFICIENTS: [u64; 20] = [
    7,
    42,
    109,
    9876,
    10001,
    271828,
    3141592,
    99999999,
    123456789,
    4294967295,
    99999999999,
    123456789012,
    1000000000000,
    31415926535897,
    100000000000001,
    2718281828459045,
    12345678901234567,
    999999999999999999,
    1000000000000000000,
    18446744073709551615,
];

// Two less than a power of ten.
const BEFORE_TENS: [u32; 9] = [
    8, 98, 998, 9998, 99998, 999998, 9999998, 99999998, 999999998,
];

// Signs, coefficients and powers of which the field is shown: corners, then edges.
const SHOWN: [(bool, u64, i32); 23] = [
    (true, 0, 7),
    (false, 0, -2147483648),
    (true, 0, 2147483647),
    (false, 18446744073709551615, 0),
    (false, 18446744073709551615, -20),
    (false, 10000000000000000000, 0),
    (true, 10000000000000000000, 2147483647),
    (false, 10000000000000000000, -2147483648),
    (false, 1, -2147483648),
    (false, 1, 2147483647),
    (false, 10, -100000001),
    (false, 1, 100000000),
    (false, 1, -100000000),
    (true, 1, -100000000),
    (false, 1, 99999999),
    (false, 1, 10),
    (false, 12, 100),
    (false, 1, -10),
    (false, 1, -11),
    (false, 1, -12),
    (true, 12345678, -15),
    (false, 1234567891, 0),
    (true, 1234567891, 0),
];

fn mixed(sum: u64, n: u64) -> u64 {
    (sum % 1000003) * 31 + n % 1000003
}

// A power by its size.
fn power(below: bool, size: u32) -> i32 {
    let n = (size % 2147483648) as i32;
    if below { n.wrapping_neg() } else { n }
}

fn next(x: u64) -> u64 {
    let a = x ^ (x << 13);
    let b = a ^ (a >> 7);
    b ^ (b << 17)
}

// How many were written and refused, how many read back to the same field, and a checksum of fields and coefficients.
#[derive(Clone, Copy, Default)]
struct Tally {
    wrote: u64,
    refused: u64,
    again: u64,
    sum: u64,
}

impl fmt::Display for Tally {
    fn fmt<W: fmt::Write>(&self, f: &mut fmt::Formatter<W>) -> fmt::Result {
        let Tally {
            wrote,
            refused,
            again,
            sum,
        } = *self;
        write!(f, "{wrote} {refused} {again} {}", sum % 1000003)
    }
}

impl Tally {
    // The field is read, and what was read is written again.
    fn read_back(&mut self, field: [u8; 11]) {
        if let Reading::Number(d) = read_number(&field).reading {
            let Decimal {
                negative,
                coefficient,
                power,
            } = d;
            let mut again = [b'#'; 11];
            let _ = write_number(negative, coefficient, power, &mut again);
            self.again = self.again.wrapping_add(u64::from(again == field));
            self.sum = mixed(self.sum, coefficient);
        }
    }

    // One decimal. A refused call has stored nothing, which the checksum tells.
    fn once(&mut self, negative: bool, coefficient: u64, power: i32) {
        let mut field = [b'#'; 11];
        let written = write_number(negative, coefficient, power, &mut field);
        self.sum = field
            .iter()
            .fold(self.sum, |sum, &b| mixed(sum, u64::from(b)));
        match written {
            Ok(()) => {
                self.wrote = self.wrote.wrapping_add(1);
                self.read_back(field);
            }
            Err(e) => {
                self.refused = self.refused.wrapping_add(1);
                self.sum = mixed(self.sum, u64::from(number_of(e)));
            }
        }
    }

    // Both signs of the power, and of the number by turns.
    fn both(&mut self, coefficient: u64, size: u32) {
        let odd = size % 2 == 1;
        self.once(odd, coefficient, power(false, size));
        self.once(odd, coefficient, power(true, size));
    }

    fn at_sizes(&mut self, coefficient: u64, sizes: u32) {
        for size in 0..sizes {
            self.both(coefficient, size);
        }
    }

    // Powers around each power of ten.
    fn at_tens(&mut self, coefficient: u64) {
        for from in BEFORE_TENS {
            self.around(coefficient, from);
        }
    }

    fn around(&mut self, coefficient: u64, from: u32) {
        for i in 0..5 {
            self.both(coefficient, from.wrapping_add(i));
        }
    }
}

// Every length of coefficient, with powers around it.
fn lengths() -> Tally {
    let mut tally = Tally::default();
    for coefficient in COEFFICIENTS {
        tally.at_sizes(coefficient, 150);
    }
    tally
}

// Powers that cross a power of ten, for every length of coefficient.
fn crossings() -> Tally {
    let mut tally = Tally::default();
    for coefficient in COEFFICIENTS {
        tally.at_tens(coefficient);
    }
    tally
}

// Decimals of all sizes, one after the other.
fn scattered() -> Tally {
    let mut tally = Tally::default();
    let mut x = 88172645463325252;
    for _ in 0..20000 {
        let y = next(x);
        x = next(y);
        let c = y >> (x % 64);
        let size = ((x >> 8) % 24) as u32;
        tally.once(x % 2 == 1, c, power((x >> 4) % 2 == 1, size));
        tally.both(c >> 24, (y % 4294967296) as u32);
    }
    tally
}

// The field that is written, or the number of the refusal.
fn show<W: Write>(out: &mut W, negative: bool, coefficient: u64, power: i32) -> io::Result<()> {
    let mut field = [b'#'; 11];
    match write_number(negative, coefficient, power, &mut field) {
        Ok(()) => {
            out.write_all(&field)?;
            writeln!(out)
        }
        Err(e) => writeln!(out, "{}", number_of(e)),
    }
}

// A piece that cannot be written is passed over, and the next is tried: so what a write answers is dropped.
fn main(rt: HostRuntime) {
    let mut stdout = rt.stdout();
    let mut out = EachPiece(&mut stdout);
    for (negative, coefficient, power) in SHOWN {
        let _ = show(&mut out, negative, coefficient, power);
    }
    let _ = writeln!(out, "{}", lengths());
    let _ = writeln!(out, "{}", crossings());
    let _ = writeln!(out, "{}", scattered());
}
