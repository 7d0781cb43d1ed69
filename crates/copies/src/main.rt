// Copies the sample, which is the first 26 records of the input, the larger entry behind it and one with flags, each
// into a buffer that fits, one that is a byte short and one that is longer; then the sample without its last record. Of
// each it says what the call answers and leaves. Every buffer is full of stars before.

#![tactic(auto)]

ghost use Rattle.std.specs.Prelude.{◌≤◌};

use check::same;
use copy::copy::copy;
use entry::judge::judge;
use paper_entry::types::Answer;
use program_text::{say_line, say_numbers};
use program_verdict::say_verdict;

fn say_answer(word: &[u8], a: Answer) {
    let record = a.record;
    let all = [
        a.number as u64,
        a.refusal as u64,
        record.0 as u64,
        a.column as u64,
    ];
    say_numbers(word, &all);
}

fn say_judged(entry: &[u8]) {
    say_verdict(b"judged ", judge(entry));
}

fn star(b: u8) -> u64
    ensures { result ≤ 1 }
{
    if b == b'*' { 1 } else { 0 }
}

// How many of the bytes are stars.
fn say_stars(s: &[u8]) {
    let mut i = 0;
    let mut n: u64 = 0;
    while i < s.len() {
        n += star(s[i]);
        i += 1;
    }
    say_line(b" stars ", &[n]);
}

fn say_same(a: &[u8], b: &[u8]) {
    if same(a, b) {
        io::write_all(1, b" the same\n");
    } else {
        io::write_all(1, b" another\n");
    }
}

// A buffer that fits: the copy, what it is judged, and its own copy.
fn say_copy(entry: &[u8], out: &mut [u8], again: &mut [u8]) {
    let a = copy(entry, out);
    say_answer(b"fits ", a);
    io::write_all(1, b"\n");
    io::write_all(1, &out[..]);
    say_judged(&out[..]);
    let b = copy(&out[..], again);
    say_answer(b"again ", b);
    say_same(&out[..], &again[..]);
}

// Any buffer: the answer, and how many stars it still has.
fn say_buffer(word: &[u8], entry: &[u8], out: &mut [u8]) {
    let a = copy(entry, out);
    say_answer(word, a);
    say_stars(&out[..]);
}

fn say_sample() {
    let mut entry = [0u8; 2106];
    let mut out = [b'*'; 2106];
    let mut again = [b'*'; 2106];
    let mut short = [b'*'; 2105];
    let mut long = [b'*'; 2116];
    io::read_full(0, &mut entry);
    say_copy(&entry, &mut out, &mut again);
    say_buffer(b"short ", &entry, &mut short);
    say_buffer(b"long ", &entry, &mut long);
}

fn say_larger() {
    let mut entry = [0u8; 3888];
    let mut out = [b'*'; 3888];
    let mut again = [b'*'; 3888];
    let mut short = [b'*'; 3887];
    let mut long = [b'*'; 3898];
    io::read_full(0, &mut entry);
    say_copy(&entry, &mut out, &mut again);
    say_buffer(b"short ", &entry, &mut short);
    say_buffer(b"long ", &entry, &mut long);
}

// Flags in COMMON and DATA: their columns stay as they stood.
fn say_flags() {
    let mut entry = [0u8; 2673];
    let mut out = [b'*'; 2673];
    let mut again = [b'*'; 2673];
    let mut short = [b'*'; 2672];
    let mut long = [b'*'; 2683];
    io::read_full(0, &mut entry);
    say_copy(&entry, &mut out, &mut again);
    say_buffer(b"short ", &entry, &mut short);
    say_buffer(b"long ", &entry, &mut long);
}

// The sample without its last record.
fn say_refused() {
    let mut entry = [0u8; 2025];
    let mut out = [b'*'; 2106];
    let mut none = [b'*'; 1];
    io::read_full(0, &mut entry);
    say_buffer(b"refused ", &entry, &mut out);
    say_buffer(b"refused ", &entry, &mut none);
}

fn main() {
    say_sample();
    say_larger();
    say_flags();
    say_refused();
}
