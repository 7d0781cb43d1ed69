// Cases for programs: changed copies of one entry, or of a file of such entries.
//
// They are lines of text, and the first character says what a line is. Numbers have leading zeros; records are counted as they
// stand when the line is met.
//
//     *COLUMNS             the next record of the entry; blanks up to column 80
//     =RRRRR CCC TEXT      puts the text into record RRRRR from column CCC on; a bar ends a text that ends in blanks
//     @RRRRR CCC BBB       puts the byte of value BBB into record RRRRR at column CCC
//     -RRRRR               leaves record RRRRR out
//     +RRRRR COLUMNS       puts a record before record RRRRR
//     &RRRRR               puts the whole entry before record RRRRR
//     <LLLLLLL             makes the case LLLLLLL bytes long: cut, or with line feeds behind it
//     ! TITLE              ends the case of an entry; the next one begins again from the whole entry
//     % TITLE              the same, but the case is a file
//     # ..                 a comment

#![tactic(auto)]

mod case;

ghost use Rattle.std.specs.Prelude.{◌≡◌, ◌<◌, ◌≤◌, length};

use case::{begin, change, insert, put_record};
use program_text::{byte_at, find};
use std::num::wrapping_add_usize;

// A case: `!` or `%`, or a blank where no title is left; where its title begins and ends in the text, and where the next line
// begins; how many bytes the whole entry has, and the case.
#[derive(Clone, Copy)]
pub struct Titled {
    pub kind: u8,
    pub from: usize,
    pub end: usize,
    pub next: usize,
    pub whole: usize,
    pub length: usize,
}

// How many bytes the whole entry has, and the case.
#[derive(Clone, Copy)]
struct Lengths {
    whole: usize,
    case: usize,
}

fn least(a: usize, b: usize) -> usize
    ensures upper_bound { result ≤ a }
    ensures upper_bound_2 { result ≤ b }
{
    if a < b { a } else { b }
}

fn is_title(kind: u8) -> bool {
    if kind == b'!' {
        return true;
    }
    kind == b'%'
}

impl Lengths {
    // What follows from one line that is no title.
    fn after(self, line: &[u8], whole: &mut [u8], case: &mut [u8]) -> Lengths {
        let entry = self.whole;
        let used = self.case;
        let kind = byte_at(line, 0);
        if kind == b'*' {
            let grown = put_record(line, 1, whole, entry);
            begin(whole, grown, case, 0);
            return Lengths {
                whole: grown,
                case: grown,
            };
        }
        if kind == b'&' {
            let inserted = insert(line, whole, entry, case, used);
            return Lengths {
                whole: entry,
                case: inserted,
            };
        }
        let changed = change(kind, line, case, used);
        Lengths {
            whole: entry,
            case: changed,
        }
    }
}

// Where the next line begins, or the text ends, behind a line that ends at `end`.
fn behind(at: usize, end: usize, size: usize) -> usize
    requires at_le_end { at ≤ end }
    requires at_lt_size { at < size }
    requires end_le_size { end ≤ size }
    ensures lower_bound { at < result }
    ensures upper_bound { result ≤ size }
{
    if end < size {
        return end + 1;
    }
    end
}

// The next case: its lines are read from `start` on, and its bytes put into `room`.
pub fn next_case(
    start: usize,
    entry: usize,
    text: &[u8],
    whole: &mut [u8],
    room: &mut [u8],
) -> Titled
    requires { start < length text.now }
    ensures from_le_end { result.from ≤ result.end }
    ensures end_in_bounds { result.end ≤ length text.now }
    ensures start_lt_next { start < result.next }
    ensures next_in_bounds { result.next ≤ length text.now }
    ensures length_in_bounds { result.length ≤ length room.old }
{
    begin(whole, entry, room, 0);
    let mut lengths = Lengths {
        whole: entry,
        case: entry,
    };
    let mut at = start;
    while at < text.len() {
        let end = find(text, at, text.len(), b'\n');
        let next = behind(at, end, text.len());
        let kind = text[at];
        if is_title(kind) {
            let from = least(wrapping_add_usize(at, 2), end);
            let used = least(lengths.case, room.len());
            return Titled {
                kind,
                from,
                end,
                next,
                whole: lengths.whole,
                length: used,
            };
        }
        lengths = lengths.after(&text[at..end], whole, room);
        at = next;
    }
    Titled {
        kind: b' ',
        from: at,
        end: at,
        next: at,
        whole: lengths.whole,
        length: 0,
    }
}

// Room for the lines.
pub fn text_room() -> [u8; 200000]
    ensures { 200000 ≡ length result }
{
    [0; 200000]
}

// Room for one record more than an entry may have.
pub fn case_room() -> [u8; 1620081]
    ensures { 1620081 ≡ length result }
{
    [0; 1620081]
}
