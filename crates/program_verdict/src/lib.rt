// A verdict as programs write it.

#![tactic(auto)]

use paper_entry::types::Verdict;
use program_text::{say_line, say_numbers};

// A word, and behind it refusal, record, column, subentries, keywords, lines and numbers.
fn say_seven(word: &[u8], v: Verdict) {
    let at = v.record;
    let totals = v.totals;
    let all = [
        v.refusal as u64,
        at.0 as u64,
        v.column as u64,
        totals.subentries as u64,
        totals.keywords as u64,
        totals.lines as u64,
        totals.numbers as u64,
    ];
    say_numbers(word, &all);
}

// These, as a line.
pub fn say_verdict(word: &[u8], v: Verdict) {
    say_seven(word, v);
    io::write_all(1, b"\n");
}

// These and the ordinal of the entry, as a line.
pub fn say_file_verdict(word: &[u8], v: Verdict) {
    say_seven(word, v);
    say_line(b" ", &[v.ordinal as u64]);
}
