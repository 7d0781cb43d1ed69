// The run of characters whose last is a comma or the closing parenthesis.
ghost use Rattle.std.specs.Prelude.{◌≡◌, ◌+◌, ◌-◌, ◌<◌, ◌≤◌, ◌^◌, length};
ghost use Rattle.paper_decay.specs.Code.{split};
ghost use Rattle.paper_decay.specs.Fields.{cut_at};
ghost use Rattle.paper_decay_run.specs.Overlay.{overlay};
ghost use Rattle.paper_decay_run.specs.Run.{next_field, run_fields, field_behind, fields_in, run_piece};

use crate::fields::put_field;
use decay_numbers::kept::put_kept;
use decay_words::words::find_byte;

// Where the next byte is stored, and the place of the next field.
#[derive(Clone, Copy)]
pub struct Put {
    pub at: usize,
    pub place: u8,
}

fn next_field(place: u8) -> u8
    requires { place ≤ 4 }
    ensures { (result ≡ next_field place) × (result ≤ 4) }
{
    if place == 4 {
        return 2;
    }
    place + 1
}

// Fields between commas.
fn put_fields(out: &mut [u8], at: usize, text: &[u8], first: u8) -> Put
    requires { (at + length text.now < 2 ^ 64) × (first ≤ 4) }
    ensures out_after { out.new
        ≡ overlay out.old at (split 44 (run_fields first (cut_at 44 text.now))) }
    ensures at_value { result.at ≡ at + length (split 44 (run_fields first (cut_at 44 text.now))) }
    ensures place_value { (result.place ≡ field_behind first (cut_at 44 text.now)) × (result.place ≤ 4) }
{
    let n = text.len();
    let mut place = first;
    let mut to = at;
    let mut i = 0;
    loop {
        let past = find_byte(text, i, b',');
        to = put_field(out, to, &text[i..past], place);
        place = next_field(place);
        if past == n {
            return Put { at: to, place };
        }
        let next = past + 1;
        to = put_kept(out, to, &text[past..next]);
        i = next;
    }
}

// Where the last of n characters stands; of none it is the beginning.
fn last_of(n: usize) -> usize
    ensures { result ≡ n - 1 }
{
    if n == 0 {
        return 0;
    }
    n - 1
}

// The last character belongs to no field.
pub fn put_text(out: &mut [u8], at: usize, text: &[u8], place: u8) -> Put
    requires { (at + length text.now < 2 ^ 64) × (place ≤ 4) }
    ensures out_after { out.new ≡ overlay out.old at (run_piece place text.now) }
    ensures at_value { result.at ≡ at + length (run_piece place text.now) }
    ensures place_value { (result.place ≡ field_behind place (fields_in text.now)) × (result.place ≤ 4) }
{
    let n = text.len();
    let last = last_of(n);
    let fields = put_fields(out, at, &text[0..last], place);
    let behind = fields.place;
    let to = put_kept(out, fields.at, &text[last..n]);
    Put {
        at: to,
        place: behind,
    }
}
