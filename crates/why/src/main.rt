// Why an entry is refused: reads an entry of at most 809 records from standard input, writes its verdict as the judging program does,
// and below it one line with the reason, or none. A longer input is refusal 1, whatever it holds.

#![tactic(auto)]

use program_reason::say_reason;
use program_verdict::say_verdict;
use reasons::explain::explain;

// 809 records, and one byte more, so that a longer input shows.
const SPACE: usize = 65530;

fn main() {
    let mut space = [0u8; SPACE];
    let n = io::read_full(0, &mut space);
    if n == SPACE {
        io::write_all(1, b"1 0 0 0 0 0 0\n");
        return;
    }
    let e = explain(&space[..n]);
    let verdict = e.verdict;
    say_verdict(b"", verdict);
    say_reason(verdict.refusal, e.reason);
}
