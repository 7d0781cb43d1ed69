// The reading of a text, character by character.
ghost use Rattle.std.specs.Prelude.{◌≡◌, ℕ, ◌≤◌, length};
ghost use Rattle.paper_decay.specs.Scan.{scan_text, stopped};

use crate::step::step;
use number::form::NumberTables;
use paper_decay::types::{Scan, Stop};

fn is_stopped(s: Scan) -> bool
    ensures { result ≡ stopped s }
{
    5 <= s.place
}

// From a state over a text, up to the character that closes the code or that no code can have there.
pub fn scan_text(numbers: &NumberTables, from: Scan, text: &[u8]) -> Stop
    ensures value { result ≡ scan_text text.now from }
    ensures at_in_bounds { result.at ≤ length text.now }
{
    let mut s = from;
    for (i, b) in text.iter().enumerate() {
        let t = step(numbers, s, *b);
        if is_stopped(t) {
            return Stop { scan: t, at: i };
        }
        s = t;
    }
    Stop {
        scan: s,
        at: text.len(),
    }
}
