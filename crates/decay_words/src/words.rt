// A text, read over once: the blanks before it, the capitals behind it, and its words between the places of a character.
ghost use Rattle.std.specs.Prelude.{◌≡◌, cond, ℕ, ◌+◌, ◌-◌, ◌^◌, ◌≤◌, ◌<◌, eqb, length, get_or};
ghost use Rattle.laws.specs.Search.{first};
ghost use Rattle.paper_record.specs.Text.{is_capital};
ghost use Rattle.paper_decay.specs.Fields.{front, cut_at};
ghost use Rattle.paper_decay_run.specs.Run.{lead_of};
ghost use Rattle.paper_decay_fields.specs.Parts.{word_at};

use paper_decay_fields::types::Part;
use record_words::word::is_from;

// How many blanks stand at the beginning.
pub fn lead_of(text: &[u8]) -> usize
    ensures value { result ≡ lead_of text.now }
    ensures upper_bound { result ≤ length text.now }
{
    for (i, b) in text.iter().enumerate() {
        if *b != b' ' {
            return i;
        }
    }
    text.len()
}

fn is_capital(b: u8) -> bool
    ensures { result ≡ is_capital b }
{
    is_from(b'A', b'Z', b)
}

// How many characters stand before the capitals at the end.
pub fn front_of(text: &[u8]) -> usize
    ensures value { result ≡ front text.now }
    ensures upper_bound { result ≤ length text.now }
{
    let mut n = text.len();
    while 0 < n {
        let last = text[n - 1];
        if !is_capital(last) {
            return n;
        }
        n -= 1;
    }
    0
}

// The first place of a character from `from` on, or the length.
pub fn find_byte(text: &[u8], from: usize, c: u8) -> usize
    requires { from ≤ length text.now }
    ensures value { result ≡ first (λ (i : ℕ). eqb (get_or text.now i 0) c) from (length text.now - from) }
    ensures lower_bound { (from ≤ result) × (result ≤ length text.now) }
{
    for i in from..text.len() {
        if text[i] == c {
            return i;
        }
    }
    text.len()
}

// The word k, counted from 0, of a text that is cut at a character.
pub fn word_at(text: &[u8], c: u8, k: usize) -> Part
    ensures value { result ≡ word_at c text.now k }
    ensures length_in_bounds { result.first + result.length ≤ length text.now }
{
    let n = text.len();
    let mut start = 0;
    for _word in 0..k {
        let end = find_byte(text, start, c);
        if end == n {
            return Part {
                first: n,
                length: 0,
            };
        }
        start = end + 1;
    }
    let past = find_byte(text, start, c);
    Part {
        first: start,
        length: past - start,
    }
}

// One more where the character is met.
fn one_more(count: usize, b: u8, c: u8) -> usize
    requires { count < 2 ^ 63 }
    ensures { result ≡ cond (eqb b c) (count + 1) count }
{
    if b == c { count + 1 } else { count }
}

// How many words there are.
pub fn count_words(text: &[u8], c: u8) -> usize
    ensures { result ≡ length (cut_at c text.now) }
{
    let mut count = 1;
    for b in text {
        count = one_more(count, *b, c);
    }
    count
}
