// Judges the entry on standard input with each of its bytes changed to each of eight, and cut after each record.
// Writes for each refusal number how many cases got it, and a checksum over refusal, record and column of all cases.

#![tactic(auto)]

ghost use Rattle.std.specs.Prelude.{◌<◌, length};

use entry::judge::judge;
use paper_entry::types::Verdict;
use program_text::say_line;
use std::num::wrapping_add_u32;

// How many cases got each refusal number, and the checksum.
#[derive(Clone, Copy)]
struct Tally {
    counts: [u32; 18],
    sum: u32,
}

fn mix(sum: u32, n: u32) -> u32 {
    ((sum as u64 * 65599 + n as u64) % 4294967291) as u32
}

impl Tally {
    fn new() -> Tally {
        Tally {
            counts: [0; 18],
            sum: 0,
        }
    }

    fn with(self, v: Verdict) -> Tally {
        let at = v.record;
        let number = v.refusal as usize;
        let mut counts = self.counts;
        if number < 18 {
            counts[number] = wrapping_add_u32(counts[number], 1);
        }
        let sum = mix(mix(mix(self.sum, v.refusal as u32), at.0), v.column as u32);
        Tally { counts, sum }
    }
}

// What a byte is changed to: a blank, digits, a letter, the signs of a number, and two that are not permitted.
fn other(k: usize) -> u8 {
    match k {
        0 => b' ',
        1 => b'0',
        2 => b'9',
        3 => b'A',
        4 => b'.',
        5 => b'-',
        6 => b'#',
        _ => b'\n',
    }
}

fn change(entry: &mut [u8], at: usize, tally: Tally) -> Tally
    requires { at < length entry.old }
{
    let kept = entry[at];
    let mut after = tally;
    let mut k: usize = 0;
    while k < 8 {
        entry[at] = other(k);
        after = after.with(judge(entry));
        k += 1;
    }
    entry[at] = kept;
    after
}

fn change_each(entry: &mut [u8]) -> Tally {
    let mut tally = Tally::new();
    let mut at: usize = 0;
    while at < entry.len() {
        tally = change(entry, at, tally);
        at += 1;
    }
    tally
}

// The last record is cut off, then the last two, until nothing is left.
fn cut_each(entry: &[u8], tally: Tally) -> Tally {
    let mut after = tally;
    let mut left = entry.len();
    while left >= 81 {
        left -= 81;
        after = after.with(judge(&entry[0..left]));
    }
    after
}

fn put_tally(tally: Tally) {
    let counts = tally.counts;
    let mut i: usize = 0;
    while i < 18 {
        let count = counts[i] as u64;
        say_line(b"", &[i as u64, count]);
        i += 1;
    }
    let sum = tally.sum as u64;
    say_line(b"checksum ", &[sum]);
}

fn run(entry: &mut [u8]) {
    let tally = change_each(entry);
    put_tally(cut_each(entry, tally));
}

fn main() {
    let mut space = io::buffer();
    let n = io::read_full(0, &mut space);
    run(&mut space[..n]);
}
