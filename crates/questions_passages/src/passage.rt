// The passages of a BIB section: its text records read one by one, on any bytes.
ghost use Rattle.std.specs.Prelude.{◌≡◌, cond, ◌&&◌, ℕ, ◌≤◌};
ghost use Rattle.paper_record.specs.Word.{equal_to};
ghost use Rattle.paper_rules.specs.Limits.{MOST-RECORDS};
ghost use Rattle.paper_questions.specs.Passage.{text_at, has_keyword, begins, begins_with, Span};
ghost use Rattle.paper_index.specs.PassageAnswers.{begun_at, ended_at};

use paper_record::types::RecordNo;
use questions_places::place::field_at;
use record_words::word::{equal_to, is_keyword_blank};

// Columns 1 to 11 of a text record, counted from 0.
fn text_at(entry: &[u8], bib: RecordNo, i: u32) -> [u8; 11]
    requires { Span bib i MOST-RECORDS }
    ensures { result ≡ text_at entry.now bib i }
{
    field_at(entry, RecordNo(bib.0 + (i + 1)), 0)
}

// Whether a passage begins.
fn begins(f: [u8; 11]) -> bool
    ensures { result ≡ begins f }
{
    !is_keyword_blank(f) || f[10] != b' '
}

// Whether the passage with this pointer begins.
fn begins_with(pointer: u8, f: [u8; 11]) -> bool
    ensures { result ≡ begins_with pointer f }
{
    begins(f) && f[10] == pointer
}

// Whether a text record stands under the keyword: as the one before it, unless it has a keyword of its own.
fn is_under(earlier: bool, keyword: [u8; 10], f: [u8; 11]) -> bool
    ensures { result ≡ cond (has_keyword f) (equal_to 10 f keyword) earlier }
{
    if is_keyword_blank(f) {
        earlier
    } else {
        equal_to(&f, &keyword, 10)
    }
}

// Whether a text record, under the keyword or not, begins the passage with this pointer under it.
fn is_begun(under: bool, pointer: u8, f: [u8; 11]) -> bool
    ensures { result ≡ under && begins_with pointer f }
{
    under && begins_with(pointer, f)
}

// The first of `n` text records that begins the passage with a keyword and a pointer, `n` where none does.
pub fn begun_at(entry: &[u8], bib: RecordNo, keyword: [u8; 10], pointer: u8, n: u32) -> u32
    requires { Span bib 0 n }
    ensures value { result ≡ begun_at entry.now bib keyword pointer n }
    ensures upper_bound { result ≤ n }
{
    let mut under = false;
    for i in 0..n {
        let f = text_at(entry, bib, i);
        under = is_under(under, keyword, f);
        if is_begun(under, pointer, f) {
            return i;
        }
    }
    n
}

// Behind the text record `p`, the first of `n` that begins any passage, `n` where none does.
pub fn ended_at(entry: &[u8], bib: RecordNo, p: u32, n: u32) -> u32
    requires { Span bib p n }
    ensures value { result ≡ ended_at entry.now bib p n }
    ensures lower_bound { p ≤ result }
    ensures upper_bound { result ≤ n }
{
    if p == n {
        return n;
    }
    for past in p + 1..n {
        let f = text_at(entry, bib, past);
        if begins(f) {
            return past;
        }
    }
    n
}
