// What a question reads of the subentry's first record, of any bytes and any row.
ghost use Rattle.std.specs.Prelude.{◌≡◌, not, [], ◌∷◌};
ghost use Rattle.paper_entry.specs.Answer.{refusal, first_of};
ghost use Rattle.paper_index.specs.Reads.{is_nosubent, has_number, good_first};

use paper_questions::types::Row;
use questions_numbers::numbers::{in_entry, is_counted};
use questions_places::place::field_at;
use record::system::{is_subent_n1, subentry_of};
use record_names::identifier::{NOSUBENT, Names, SUBENT};
use rules_numbers::numbers::LAST_SUBENTRY;

// Whether N1 of SUBENT is in its form and says this number.
fn has_number(f: [u8; 11], n: u32) -> bool
    ensures { result ≡ has_number f n }
{
    if !is_subent_n1(f) {
        return false;
    }
    let number = subentry_of(f);
    if number != n {
        return false;
    }
    is_counted(LAST_SUBENTRY, n)
}

// Of the subentry's first record: 32 where it is NOSUBENT, 39 where it is not its SUBENT, else 0.
pub fn first_refusal(entry: &[u8], names: &Names, row: Row) -> u8
    ensures { result ≡ first_of (refusal 32 (is_nosubent entry.now row)
        ∷ refusal 39 (not (good_first entry.now row)) ∷ []) }
{
    let first = row.first;
    if !in_entry(entry, first) {
        return 39;
    }
    let f = field_at(entry, first, 0);
    let identifier = names.identifier_of(f);
    if identifier == NOSUBENT {
        return 32;
    }
    if identifier != SUBENT {
        return 39;
    }
    let n1 = field_at(entry, first, 1);
    let number = row.number;
    if !has_number(n1, number) {
        return 39;
    }
    0
}
