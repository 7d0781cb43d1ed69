// Judges changed copies of one entry, or of a file of such entries, and writes each verdict under the title of its case: the seven
// numbers, of a file the ordinal as the eighth. How the cases are written on standard input is said in the crate `program_cases`.

#![tactic(auto)]

ghost use Rattle.std.specs.Prelude.{◌≤◌, length};

use entry::judge::judge;
use files::judge_file::judge_file;
use program_cases::{case_room, next_case, text_room};
use program_verdict::{say_file_verdict, say_verdict};

// Writes the title and the verdict on the first `used` bytes.
fn show(kind: u8, title: &[u8], room: &[u8], used: usize)
    requires { used ≤ length room.now }
{
    if kind == b'!' {
        io::write_all(1, title);
        say_verdict(b": ", judge(&room[0..used]));
    }
    if kind == b'%' {
        io::write_all(1, title);
        say_file_verdict(b": ", judge_file(&room[0..used]));
    }
}

fn run(text: &[u8], whole: &mut [u8], room: &mut [u8]) {
    let mut at: usize = 0;
    let mut entry: usize = 0;
    while at < text.len() {
        let case = next_case(at, entry, text, whole, room);
        let from = case.from;
        let end = case.end;
        show(case.kind, &text[from..end], room, case.length);
        at = case.next;
        entry = case.whole;
    }
}

fn main() {
    let mut text = text_room();
    let mut whole = io::large_buffer();
    let mut room = case_room();
    let n = io::read_full(0, &mut text);
    run(&text[..n], &mut whole, &mut room);
}
