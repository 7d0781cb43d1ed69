// Says of changed copies of one entry, or of a file of such entries, why they are refused: writes each verdict under the title of its
// case, as the program `verdicts` does, and below it the reason, as the program `why` does. How the cases are written on standard
// input is said in the crate `program_cases`.

#![tactic(auto)]

ghost use Rattle.std.specs.Prelude.{◌≤◌, length};

use files_reasons::explain_file::explain_file;
use paper_reasons::types::Explained;
use program_cases::{case_room, next_case, text_room};
use program_reason::say_reason;
use program_verdict::{say_file_verdict, say_verdict};
use reasons::explain::explain;

fn say_entry(title: &[u8], e: Explained) {
    let verdict = e.verdict;
    io::write_all(1, title);
    say_verdict(b": ", verdict);
    say_reason(verdict.refusal, e.reason);
}

fn say_file(title: &[u8], e: Explained) {
    let verdict = e.verdict;
    io::write_all(1, title);
    say_file_verdict(b": ", verdict);
    say_reason(verdict.refusal, e.reason);
}

// Writes the title, and what is said of the first `used` bytes.
fn show(kind: u8, title: &[u8], room: &[u8], used: usize)
    requires { used ≤ length room.now }
{
    if kind == b'!' {
        say_entry(title, explain(&room[0..used]));
    }
    if kind == b'%' {
        say_file(title, explain_file(&room[0..used]));
    }
}

fn run(text: &[u8], whole: &mut [u8], room: &mut [u8]) {
    let mut at: usize = 0;
    let mut entry: usize = 0;
    while at < text.len() {
        let case = next_case(at, entry, text, whole, room);
        let from = case.from;
        let end = case.end;
        show(case.kind, &text[from..end], room, case.length);
        at = case.next;
        entry = case.whole;
    }
}

fn main() {
    let mut text = text_room();
    let mut whole = io::large_buffer();
    let mut room = case_room();
    let n = io::read_full(0, &mut text);
    run(&text[..n], &mut whole, &mut room);
}
