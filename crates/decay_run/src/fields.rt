// One field of a code's run, by its place: 0 flag and nuclide, 1 half-life, 2 types, 3 energies, 4 abundance.
ghost use Rattle.std.specs.Prelude.{◌≡◌, ◌++◌, ◌+◌, ◌<◌, ◌^◌, length};
ghost use Rattle.paper_decay.specs.Fields.{number_of, unit_of};
ghost use Rattle.paper_decay_run.specs.Overlay.{overlay};
ghost use Rattle.paper_decay_run.specs.Run.{run_number, run_said, run_field};

use decay_numbers::kept::put_kept;
use decay_numbers::numbers::{put_energies, put_number};
use decay_words::words::{front_of, lead_of};

// A half-life: its number, and its unit as it was.
fn put_half(out: &mut [u8], at: usize, text: &[u8]) -> usize
    requires { at + length text.now < 2 ^ 64 }
    ensures out_after { out.new
        ≡ overlay out.old at (run_number (number_of text.now) ++ unit_of text.now) }
    ensures value { result ≡ at + length (run_number (number_of text.now) ++ unit_of text.now) }
{
    let n = text.len();
    let front = front_of(text);
    let to = put_number(out, at, &text[0..front]);
    put_kept(out, to, &text[front..n])
}

// A field without the blanks at its beginning.
fn put_said(out: &mut [u8], at: usize, text: &[u8], place: u8) -> usize
    requires { at + length text.now < 2 ^ 64 }
    ensures out_after { out.new ≡ overlay out.old at (run_said place text.now) }
    ensures value { result ≡ at + length (run_said place text.now) }
{
    if place == 1 {
        return put_half(out, at, text);
    }
    if place == 3 {
        return put_energies(out, at, text);
    }
    if place == 4 {
        return put_number(out, at, text);
    }
    put_kept(out, at, text)
}

pub fn put_field(out: &mut [u8], at: usize, text: &[u8], place: u8) -> usize
    requires { at + length text.now < 2 ^ 64 }
    ensures out_after { out.new ≡ overlay out.old at (run_field place text.now) }
    ensures value { result ≡ at + length (run_field place text.now) }
{
    let n = text.len();
    let lead = lead_of(text);
    let to = put_kept(out, at, &text[0..lead]);
    put_said(out, to, &text[lead..n], place)
}
