// Asks for subentries of a held entry and its revision, and merges the two. The input is the sample entry and cases, in
// lines as the crate `program_cases` says them. A case is the lines that make the held entry, up to a title, and those
// that make the revision, up to a line with numbers:
//
//     ! TITLE
//     % RRRRR-NNNNNNNNN ..
//
// The merge has a buffer of RRRRR bytes, each a `~` before. Behind them each ten columns are a subentry to ask for: a
// blank and NNNNNNNNN, or a `-` and how far it is below 4,294,967,295. Numbers have leading zeros.
//
// Of each case it writes the title. Of each subentry: its number; the answer's number, refusal, record and column; which
// entry is refused (1 held, 2 revision); whether the part lies in the revision (1) or not (0), where it begins, its length;
// the length of the part itself and its sum. Of the merge: the answer's number, refusal, record and column; which entry is
// refused; the merge's length, the sum of so many bytes of the buffer, and how many bytes behind them are still a `~`.
// Where it is 0, those records of the merge that have the sequence 00001 or the subentry 999. The sum begins at 0, and
// each byte b makes the sum s into (65599 s + b) mod 4294967291.

#![tactic(auto)]

mod asking;
mod writing;

use crate::asking::{ask_merge, ask_subentries};
use program_cases::{next_case, text_room};
use program_text::number_in;

fn answer<'a>(title: &[u8], numbers: &[u8], held: &'a [u8], revision: &'a [u8]) {
    let room = number_in(numbers, 0, 5) as usize;
    io::write_all(1, title);
    io::write_all(1, b"\n");
    ask_subentries(held, revision, numbers);
    ask_merge(held, revision, room);
}

// The first m bytes of one room are the held entry, the first n of the other the revision.
fn answer_of<'a>(
    title: &[u8],
    numbers: &[u8],
    held: &'a [u8],
    m: usize,
    revision: &'a [u8],
    n: usize,
) {
    if held.len() < m {
        return;
    }
    if revision.len() < n {
        return;
    }
    answer(title, numbers, &held[0..m], &revision[0..n]);
}

fn read_cases(text: &[u8], whole: &mut [u8], held: &mut [u8], revision: &mut [u8]) {
    let mut at: usize = 0;
    let mut entry: usize = 0;
    while at < text.len() {
        let first = next_case(at, entry, text, whole, held);
        let between = first.next;
        if text.len() <= between {
            return;
        }
        let second = next_case(between, first.whole, text, whole, revision);
        let from = first.from;
        let end = first.end;
        let title = &text[from..end];
        let start = second.from;
        let past = second.end;
        let numbers = &text[start..past];
        let m = first.length;
        let n = second.length;
        answer_of(title, numbers, held, m, revision, n);
        at = second.next;
        entry = second.whole;
    }
}

fn main() {
    let mut text = text_room();
    let mut whole = [0u8; 8910];
    let mut held = [0u8; 8910];
    let mut revision = [0u8; 8910];
    let n = io::read_full(0, &mut text);
    read_cases(&text[..n], &mut whole, &mut held, &mut revision);
}
