// The judging program: reads an entry of at most 809 records from standard input, and writes refusal, record, column,
// subentries, keywords, lines and numbers. A longer input is refusal 1, whatever it holds.

#![tactic(auto)]

use entry::judge::judge;
use program_verdict::say_verdict;

// 809 records, and one byte more, so that a longer input shows.
const SPACE: usize = 65530;

fn main() {
    let mut space = [0u8; SPACE];
    let n = io::read_full(0, &mut space);
    if n == SPACE {
        io::write_all(1, b"1 0 0 0 0 0 0\n");
        return;
    }
    say_verdict(b"", judge(&space[..n]));
}
