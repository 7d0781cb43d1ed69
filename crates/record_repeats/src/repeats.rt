// The headings that may repeat, by their words.
ghost use Rattle.std.specs.Prelude.{◌≡◌, ◌+◌, ◌≤◌, length};
ghost use Rattle.paper_record.specs.Repeats.{letters_at, spells, ends_in, starts_with};
ghost use Rattle.paper_record.specs.Repeats.{listed_word, listed_ending, listed_start, may_repeat};

use record_words::word::{equal_to, word_end};

// Whether the letters `w` stand in a field behind its first `at` columns.
fn letters_at(f: [u8; 11], at: usize, w: &[u8]) -> bool
    requires { at + length w.now ≤ 11 }
    ensures { result ≡ letters_at f at w.now }
{
    equal_to(&f[at..at + w.len()], w, w.len())
}

// Whether the word of a field is `w`.
fn spells(f: [u8; 11], w: &[u8]) -> bool
    ensures { result ≡ spells f w.now }
{
    let end = word_end(f);
    end == w.len() && letters_at(f, 0, w)
}

// Whether the word of a field ends in `w`.
fn ends_in(f: [u8; 11], w: &[u8]) -> bool
    ensures { result ≡ ends_in f w.now }
{
    let end = word_end(f);
    w.len() <= end && letters_at(f, end - w.len(), w)
}

// Whether the word of a field starts with `w`.
fn starts_with(f: [u8; 11], w: &[u8]) -> bool
    ensures { result ≡ starts_with f w.now }
{
    w.len() <= word_end(f) && letters_at(f, 0, w)
}

fn listed_word(in_data: bool, f: [u8; 11]) -> bool
    ensures { result ≡ listed_word in_data f }
{
    spells(f, b"E-LVL") || spells(f, b"EN-RES") || (in_data && spells(f, b"FLAG"))
}

fn listed_ending(f: [u8; 11]) -> bool
    ensures { result ≡ listed_ending f }
{
    ends_in(f, b"-ERR") || ends_in(f, b"-RSL")
}

fn listed_start(in_data: bool, f: [u8; 11]) -> bool
    ensures { result ≡ listed_start in_data f }
{
    starts_with(f, b"ANG") || (in_data && starts_with(f, b"HL"))
}

// Whether a heading with this word may repeat in COMMON or in DATA.
pub fn may_repeat(in_data: bool, f: [u8; 11]) -> bool
    ensures { result ≡ may_repeat in_data f }
{
    listed_word(in_data, f) || listed_ending(f) || listed_start(in_data, f)
}
