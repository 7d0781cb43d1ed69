// A part of a text: its words, its blanks, its number. Every part lies in the text.
ghost use Rattle.std.specs.Prelude.{◌≡◌, ◌≤◌};
ghost use Rattle.paper_decay.specs.Fields.{front};
ghost use Rattle.paper_decay_fields.specs.Parts.{text_in, or_none, word_in, words_in, unspaced, number_in};
ghost use Rattle.paper_decay_fields.specs.Claims.{Lies};

use decay_words::words::{count_words, front_of, lead_of, word_at};
use number_reading::read::read_narrow;
use paper_decay_fields::types::{NumberPart, Part};
use paper_number::types::Reading;

// An empty part has no place.
pub fn or_none(p: Part) -> Part
    ensures { result ≡ or_none p }
{
    if p.length == 0 {
        return Part {
            first: 0,
            length: 0,
        };
    }
    p
}

// The word k within a part, counted from 0.
pub fn word_in(run: &[u8], c: u8, p: Part, k: usize) -> Part
    requires { Lies run.now p }
    ensures { (result ≡ word_in c run.now p k) × Lies run.now result }
{
    let first = p.first;
    let past = first + p.length;
    let word = word_at(&run[first..past], c, k);
    Part {
        first: first + word.first,
        length: word.length,
    }
}

// How many words a part has.
pub fn words_in(run: &[u8], c: u8, p: Part) -> usize
    requires { Lies run.now p }
    ensures { result ≡ words_in c run.now p }
{
    let first = p.first;
    let length = p.length;
    let past = first + length;
    if length == 0 {
        return 0;
    }
    count_words(&run[first..past], c)
}

// A part without the blanks at its beginning.
pub fn unspaced(run: &[u8], p: Part) -> Part
    requires { Lies run.now p }
    ensures { (result ≡ unspaced run.now p) × Lies run.now result }
{
    let first = p.first;
    let length = p.length;
    let past = first + length;
    let lead = lead_of(&run[first..past]);
    Part {
        first: first + lead,
        length: length - lead,
    }
}

// How many characters of a part stand before the capitals at its end.
pub fn front_in(run: &[u8], p: Part) -> usize
    requires { Lies run.now p }
    ensures { (result ≡ front (text_in run.now p)) × (result ≤ p.length) }
{
    let first = p.first;
    let past = first + p.length;
    front_of(&run[first..past])
}

// A number's place and its reading: it has at most eleven characters.
pub fn number_in(run: &[u8], p: Part) -> NumberPart
    requires { Lies run.now p }
    ensures { result ≡ number_in run.now p }
{
    let first = p.first;
    let length = p.length;
    let past = first + length;
    let part = or_none(p);
    if 11 < length {
        return NumberPart {
            part,
            value: Reading::Blank,
        };
    }
    let value = read_narrow(&run[first..past]);
    NumberPart { part, value }
}
