// A code in the records of its passage: it breaks only after a comma and goes on in column 12.
ghost use Rattle.std.specs.Prelude.{◌≡◌, ℕ, ◌+◌, ◌*◌, ◌≤◌, ◌<◌, length};
ghost use Rattle.paper_decay.specs.Scan.{fresh};
ghost use Rattle.paper_decay.specs.Records.{filled_to, said, turned_out, turned_on, behind_text, turned_of, scan_records, Records};

use decay_scan::scan::scan_text;
use number::form::NumberTables;
use paper_decay::types::{Coded, Scan, Stop, Turned};

// How many columns there are up to the last that is filled.
pub fn filled_to(text: &[u8]) -> usize
    ensures value { result ≡ filled_to text.now }
    ensures upper_bound { result ≤ length text.now }
{
    let n = text.len();
    for i in 0..n {
        let at = n - 1 - i;
        if text[at] != b' ' {
            return n - i;
        }
    }
    0
}

fn said(number: u8, at: usize, column: usize) -> Coded
    ensures { result ≡ said number at column }
{
    Coded { number, at, column }
}

fn turned_out(answer: Coded) -> Turned
    ensures { result ≡ turned_out answer }
{
    let scan = Scan {
        place: 6,
        inner: 0,
        count: 0,
        again: false,
        filled: false,
    };
    Turned {
        going: false,
        scan,
        coded: answer,
    }
}

fn turned_on(scan: Scan) -> Turned
    ensures { result ≡ turned_on scan }
{
    let none = said(0, 0, 0);
    Turned {
        going: true,
        scan,
        coded: none,
    }
}

// Behind the filled columns of a record, whose last is `last`.
fn behind_text(stop: Stop, at: usize, filled: usize, last: u8) -> Turned
    requires { (stop.at ≤ 55) × (filled ≤ 55) }
    ensures { result ≡ behind_text stop at filled last }
{
    let scan = stop.scan;
    let place = scan.place;
    let column = stop.at + 12;
    if place == 5 {
        return turned_out(said(0, at, column));
    }
    if place == 6 {
        return turned_out(said(50, at, column));
    }
    if last == b',' {
        return turned_on(scan);
    }
    turned_out(said(51, at, filled + 11))
}

// The text of one record, columns 12 to 66.
fn turned_at(numbers: &NumberTables, s: Scan, text: &[u8], at: usize) -> Turned
    requires { length text.now ≤ 55 }
    ensures { result ≡ turned_of s text.now at }
{
    let filled = filled_to(text);
    if filled == 0 {
        return turned_out(said(50, at, 12));
    }
    let stop = scan_text(numbers, s, &text[0..filled]);
    let last = text[filled - 1];
    behind_text(stop, at, filled, last)
}

// The code that the record with the index `first` opens, in the records up to `past`.
pub fn scan_records(numbers: &NumberTables, entry: &[u8], first: usize, past: usize) -> Coded
    requires { Records entry.now first past }
    ensures { result ≡ scan_records entry.now first past }
{
    let mut s = Scan {
        place: 0,
        inner: 0,
        count: 0,
        again: false,
        filled: false,
    };
    for i in first..past {
        let from = i * 81 + 11;
        let to = from + 55;
        let t = turned_at(numbers, s, &entry[from..to], i);
        let going = t.going;
        if !going {
            return t.coded;
        }
        s = t.scan;
    }
    said(50, past, 0)
}
