// Lines in the CINDA2001 layout, for host programs: checked, taken apart and written back. A refused call stores nothing.
ghost use Rattle.std.specs.Prelude.{◌≡◌, length};
ghost use Rattle.paper_cinda.specs.Check.{check_of};
ghost use Rattle.paper_cinda.specs.Apart.{asked_for, line_asked};
ghost use Rattle.paper_cinda.specs.Back.{written, stored};
ghost use Rattle.exports_lines.specs.Lines.{lines_word, numbers_stored, energy_stored};
ghost use Rattle.exports_lines.specs.Pieces.{pieces_stored};

use cinda::ask::{line as ask_line, piece};
use cinda::back::write_back;
use cinda_check::check::check;
use exports_lines::lines::{lines_word, put_line, put_pieces};
use paper_cinda::types::{CindaNo, Piece};

// Whether lines are good: 0, or the word of the first refusal.
#[unsafe(no_mangle)]
pub extern "C" fn x4_cinda_check(lines: &[u8]) -> u64
    ensures { result ≡ lines_word (check_of lines.now) }
{
    lines_word(check(lines))
}

// A line taken apart: its numbers and single characters, and its two energies.
#[unsafe(no_mangle)]
pub extern "C" fn x4_cinda_line(
    lines: &[u8],
    line: u32,
    numbers: &mut [u64; 14],
    least: &mut [u64; 8],
    greatest: &mut [u64; 8],
) -> u64
    ensures value { result ≡ lines_word (line_asked lines.now (record { 0 = line })).answer }
    ensures numbers_after { numbers.new
        ≡ numbers_stored numbers.old (line_asked lines.now (record { 0 = line })) }
    ensures least_after { least.new
        ≡ energy_stored least.old (line_asked lines.now (record { 0 = line })).answer
        (line_asked lines.now (record { 0 = line })).line.least }
    ensures greatest_after { greatest.new
        ≡ energy_stored greatest.old (line_asked lines.now (record { 0 = line })).answer
        (line_asked lines.now (record { 0 = line })).line.greatest }
{
    let at = CindaNo(line);
    let a = ask_line(lines, at);
    put_line(a, numbers, least, greatest)
}

// Where a line stands in the lines, and in it reaction, quantity, institute, reference and comment.
#[unsafe(no_mangle)]
pub extern "C" fn x4_cinda_pieces(lines: &[u8], line: u32, places: &mut [u64; 12]) -> u64
    ensures value { result ≡ lines_word (asked_for lines.now (record { 0 = line })) }
    ensures places_after { places.new ≡ pieces_stored places.old lines.now (record { 0 = line }) }
{
    let number = CindaNo(line);
    let whole = piece(lines, number, Piece::Whole);
    put_pieces(whole, places)
}

// Stores the lines with canonical energies in a buffer that may be longer: 0 done, else the word of the refusal.
#[unsafe(no_mangle)]
pub extern "C" fn x4_cinda_back(lines: &[u8], out: &mut [u8]) -> u64
    ensures value { result ≡ lines_word (written lines.now (length out.old)) }
    ensures out_after { out.new ≡ stored lines.now out.old }
{
    lines_word(write_back(lines, out))
}
