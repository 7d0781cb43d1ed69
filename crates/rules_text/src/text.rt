// The rules for text records: refusal 10, and 11 as far as it is theirs. Each gives the leftmost column at fault, 0
// where there is none: `leftmost` (paper_faults) gives that number.
ghost use Rattle.std.specs.Prelude.{◌≡◌, ℕ, ◌+◌, ◌-◌, ◌*◌, ◌/◌, ◌≤◌, ◌<◌, eqb, length, get_or};
ghost use Rattle.laws.specs.Members.{any_of};
ghost use Rattle.paper_record.specs.Word.{equal_to};
ghost use Rattle.paper_rules.specs.Ranging.{Stands};
ghost use Rattle.paper_rules.specs.Parts.{bytes_of};
ghost use Rattle.paper_rules.specs.Roles.{TEXT};
ghost use Rattle.paper_faults.specs.Fault.{leftmost, on};
ghost use Rattle.paper_rules.specs.Text.{places_of, eights_of, pointers_of, keyword_fault, rule10, pointer_repeated};
ghost use Rattle.paper_rules.specs.Text.{rule11_text};

use columns::fields::field;
use paper_rules::types::{Ranges, Track};
use record_faults::faults::bad_pointer;
use record_words::word::{eight_columns, is_keyword_blank, is_word, same_keyword};
use rules_roles::ranging::part;
use rules_roles::roles::TEXT;

// Whether one of the records of a part has columns 3 to 10 of that number. One test a record and no array: about twice
// as fast as comparing ten columns.
fn eight_in(part: &[u8], number: u64) -> bool
    ensures { result ≡ any_of (eqb number) (eights_of part.now) }
{
    for i in 0..part.len() / 81 {
        if number == eight_columns(part, i * 81 + 2) {
            return true;
        }
    }
    false
}

// Whether one of the records of a part has the keyword, by all ten columns.
fn keyword_among(part: &[u8], f: [u8; 11]) -> bool
    ensures { result ≡ any_of (equal_to 10 f) (places_of part.now) }
{
    for i in 0..part.len() / 81 {
        if same_keyword(f, field(part, i * 81)) {
            return true;
        }
    }
    false
}

// The same. Most keywords differ from all others in columns 3 to 10.
fn keyword_in(part: &[u8], f: [u8; 11]) -> bool
    ensures { result ≡ any_of (equal_to 10 f) (places_of part.now) }
{
    eight_in(part, eight_columns(&f, 2)) && keyword_among(part, f)
}

// Whether one of the records of a part has the pointer.
pub fn pointer_in(part: &[u8], pointer: u8) -> bool
    ensures { result ≡ any_of (eqb pointer) (pointers_of part.now) }
{
    for i in 0..part.len() / 81 {
        if pointer == part[i * 81 + 10] {
            return true;
        }
    }
    false
}

fn keyword_fault(track: Track, bib: &[u8], f: [u8; 11]) -> bool
    ensures { result ≡ keyword_fault bib.now track f }
{
    if is_keyword_blank(f) {
        track.section == 0
    } else {
        !is_word(f) || keyword_in(bib, f)
    }
}

fn pointer_repeated(under: &[u8], f: [u8; 11]) -> bool
    ensures { result ≡ pointer_repeated under.now f }
{
    f[10] != b' ' && is_keyword_blank(f) && pointer_in(under, f[10])
}

#[tactic(auto, unfolding(paper_rules::specs::Text::rule10))]
pub fn rule10(track: Track, ranges: Ranges, before: &[u8], role: usize, fs: [[u8; 11]; 6]) -> u8
    requires { Stands track ranges before.now }
    ensures { result
        ≡ leftmost (on (eqb role TEXT) (rule10 (bytes_of before.now ranges.bib) track fs)) }
{
    if role == TEXT && keyword_fault(track, part(before, ranges.bib), fs[0]) {
        1
    } else {
        0
    }
}

// Rule 11 on a text record.
#[tactic(auto, unfolding(paper_rules::specs::Text::rule11_text))]
pub fn rule11_text(track: Track, ranges: Ranges, before: &[u8], fs: [[u8; 11]; 6]) -> u8
    requires { Stands track ranges before.now }
    ensures { result ≡ leftmost (rule11_text (bytes_of before.now ranges.under) fs) }
{
    let f = fs[0];
    if bad_pointer(f) || pointer_repeated(part(before, ranges.under), f) {
        11
    } else {
        0
    }
}
