// Whether the heading and the unit at a place can be read there, whatever the bytes of the entry are.
ghost use Rattle.std.specs.Prelude.{◌≡◌, not, ◌&&◌, ◌≤◌};
ghost use Rattle.paper_record.specs.Word.{is_word, pointer_of};
ghost use Rattle.paper_record.specs.Faults.{bad_pointer};
ghost use Rattle.paper_questions.specs.Place.{field_of};
ghost use Rattle.paper_index.specs.Reads.{good_heading, good_unit};

use paper_record::types::Place;
use questions_numbers::numbers::in_entry;
use questions_places::place::field_of;
use record_faults::faults::{bad_pointer, is_unit};
use record_words::word::is_word;

// A heading's field: whether it is in its form, and its eleventh column. No Option: `heading_at` promises the column of any field.
#[derive(Clone, Copy)]
pub struct HeadingRead {
    pub good: bool,
    pub pointer: u8,
}

// Whether a field is a heading: a word, and a pointer or blank.
fn is_heading(f: [u8; 11]) -> bool
    ensures { result ≡ is_word 10 f && not (bad_pointer f) }
{
    is_word(f) && !bad_pointer(f)
}

// Whether the heading at a place can be read there, and its pointer.
#[tactic(auto, unfolding(paper_index::specs::Reads::good_heading))]
pub fn heading_at(entry: &[u8], place: Place) -> HeadingRead
    requires { place.field ≤ 5 }
    ensures good_value { result.good ≡ good_heading entry.now place }
    ensures pointer_value { result.pointer ≡ pointer_of (field_of entry.now place) }
{
    let f = field_of(entry, place);
    HeadingRead {
        good: in_entry(entry, place.at) && is_heading(f),
        pointer: f[10],
    }
}

// Whether the unit at a place can be read there.
#[tactic(auto, unfolding(paper_index::specs::Reads::good_unit))]
pub fn unit_at(entry: &[u8], place: Place) -> bool
    requires { place.field ≤ 5 }
    ensures { result ≡ good_unit entry.now place }
{
    let f = field_of(entry, place);
    in_entry(entry, place.at) && is_unit(f)
}
