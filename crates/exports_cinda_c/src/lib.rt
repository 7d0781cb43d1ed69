// The archive of `exports_cinda` for C: lines in the CINDA2001 layout. Each function has the name, the arguments and
// the promise of one there, and calls it.

#![tactic(auto)]

ghost use Rattle.std.specs.Prelude.{◌≡◌, length};
ghost use Rattle.paper_cinda.specs.Check.{check_of};
ghost use Rattle.paper_cinda.specs.Apart.{asked_for, line_asked};
ghost use Rattle.paper_cinda.specs.Back.{written, stored};
ghost use Rattle.exports_lines.specs.Lines.{lines_word, numbers_stored, energy_stored};
ghost use Rattle.exports_lines.specs.Pieces.{pieces_stored};

// Whether lines are good: 0, or the word of the first refusal.
#[unsafe(no_mangle)]
pub extern "C" fn x4_cinda_check(lines: &[u8]) -> u64
    ensures { result ≡ lines_word (check_of lines.now) }
{
    exports_cinda::lines::x4_cinda_check(lines)
}

// A line taken apart: its numbers and single characters, and its two energies.
#[unsafe(no_mangle)]
pub extern "C" fn x4_cinda_line(
    lines: &[u8],
    line: u32,
    numbers: &mut [u64; 14],
    least: &mut [u64; 8],
    greatest: &mut [u64; 8],
) -> u64
    ensures value { result ≡ lines_word (line_asked lines.now (record { 0 = line })).answer }
    ensures numbers_after { numbers.new
        ≡ numbers_stored numbers.old (line_asked lines.now (record { 0 = line })) }
    ensures least_after { least.new
        ≡ energy_stored least.old (line_asked lines.now (record { 0 = line })).answer
        (line_asked lines.now (record { 0 = line })).line.least }
    ensures greatest_after { greatest.new
        ≡ energy_stored greatest.old (line_asked lines.now (record { 0 = line })).answer
        (line_asked lines.now (record { 0 = line })).line.greatest }
{
    exports_cinda::lines::x4_cinda_line(lines, line, numbers, least, greatest)
}

// Where a line stands in the lines, and in it reaction, quantity, institute, reference and comment.
#[unsafe(no_mangle)]
pub extern "C" fn x4_cinda_pieces(lines: &[u8], line: u32, places: &mut [u64; 12]) -> u64
    ensures value { result ≡ lines_word (asked_for lines.now (record { 0 = line })) }
    ensures places_after { places.new ≡ pieces_stored places.old lines.now (record { 0 = line }) }
{
    exports_cinda::lines::x4_cinda_pieces(lines, line, places)
}

// Stores the lines with canonical energies in a buffer that may be longer: 0 done, else the word of the refusal.
#[unsafe(no_mangle)]
pub extern "C" fn x4_cinda_back(lines: &[u8], out: &mut [u8]) -> u64
    ensures value { result ≡ lines_word (written lines.now (length out.old)) }
    ensures out_after { out.new ≡ stored lines.now out.old }
{
    exports_cinda::lines::x4_cinda_back(lines, out)
}
