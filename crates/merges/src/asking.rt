// The two questions about a held entry and its revision.
use crate::writing::{buffer, say_records, sum_of, tildes};
use paper_revisions::types::Merged;
use program_answer::say_answer;
use program_text::{byte_at, number_in, say, say_line};
use revisions::subentry::{subentry, subentry_part};
use revisions_merge::merge::merge;

fn one_of(yes: bool) -> u64 {
    if yes { 1 } else { 0 }
}

fn ask_subentry<'a>(held: &'a [u8], revision: &'a [u8], n: u32) {
    let p = subentry(held, revision, n);
    let part = subentry_part(held, revision, n);
    let a = p.answer;
    let second = one_of(p.revision);
    let sum = sum_of(part);
    let place = [
        p.which as u64,
        second,
        p.first as u64,
        p.length as u64,
        part.len() as u64,
        sum as u64,
    ];
    say(b"subentry ", n as u64);
    io::write_all(1, b": ");
    say_answer(a);
    say_line(b" ", &place);
}

// Nine digits behind a blank, or behind a `-` how far below the greatest number.
fn number_at(numbers: &[u8], at: usize, past: usize) -> u32 {
    let n = number_in(numbers, at, past);
    let sign = byte_at(numbers, at);
    if sign == b'-' {
        return 4294967295 - n;
    }
    n
}

pub(crate) fn ask_subentries<'a>(held: &'a [u8], revision: &'a [u8], numbers: &[u8]) {
    let mut at: usize = 5;
    while at < numbers.len() {
        let past = at + 10;
        let n = number_at(numbers, at, past);
        ask_subentry(held, revision, n);
        at = past;
    }
}

// The answer and, where they lie in the buffer, the merge's bytes and those behind them.
fn say_merge(m: Merged, out: &[u8]) {
    let a = m.answer;
    let number = a.number;
    let which = m.which;
    let length = m.length;
    io::write_all(1, b"merge: ");
    say_answer(a);
    if out.len() < length {
        return;
    }
    let sum = sum_of(&out[0..length]);
    let kept = tildes(&out[length..]);
    let all = [which as u64, length as u64, sum as u64, kept];
    say_line(b" ", &all);
    if number == 0 {
        say_records(&out[0..length]);
    }
}

fn merge_into(held: &[u8], revision: &[u8], out: &mut [u8]) {
    let m = merge(held, revision, out);
    say_merge(m, out);
}

pub(crate) fn ask_merge(held: &[u8], revision: &[u8], room: usize) {
    let mut out = buffer();
    if room <= 16200 {
        merge_into(held, revision, &mut out[0..room]);
    }
}
