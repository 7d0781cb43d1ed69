// What the programs of this repository have in common: reading standard input, and numbers in the lines that they read.

#![tactic(auto)]

mod pieces;
mod words;

ghost use Rattle.std.specs.Prelude.{◌≡◌, ◌≢◌, ◌<◌, ◌≤◌, ◌-◌, ℕ, length, take, slice_index, ◌++◌, codes, IfOk, IfSome, OnOk};
ghost use Rattle.std.specs.Io.KnownBytes.{Appends, Consumes};
ghost use Rattle.program_text.specs.Line.{byte_at, with_digit, number_over};

pub use pieces::EachPiece;
use std::alloc::Global;
use std::io::{self, Read, Write};
pub use words::{say, say_line, say_numbers, say_power};

/// The bytes of a reader, `most` of them at most.
pub fn read_at_most<R: Read + Drop>(reader: R, alloc: Global, most: u64) -> io::Result<Vec<u8>>
    ensures { IfOk result (λ all. IfSome (R.remaining reader) (λ xs. all.items ≡ take most xs)) }
{
    let mut all = Vec::new(alloc);
    reader.take(most).read_to_end(&mut all)?;
    Ok(all)
}

/// Fills the buffer with the bytes of a reader until it is full, the input ends or a read fails, and says how many these are.
pub fn read_full<R: Read>(reader: &mut R, buffer: &mut [u8]) -> usize
    ensures in_bounds { result ≤ length buffer.new }
    ensures bytes { Consumes (R.remaining reader.old) (R.remaining reader.new) (take result buffer.new) }
{
    let mut used = 0;
    while used < buffer.len() {
        match reader.read(&mut buffer[used..]) {
            Ok(0) | Err(_) => break,
            Ok(count) => used += count,
        }
    }
    used
}

/// The byte at `i`; past the end of the line it is blank.
pub fn byte_at(line: &[u8], i: usize) -> u8
    ensures { result ≡ byte_at line.now i }
{
    line.get(i).copied().unwrap_or(b' ')
}

// A number with one digit more at its end; 0 where it has nine digits, or the byte is none.
#[tactic(auto, unfolding(crate::specs::Line::with_digit))]
fn with_digit(n: u32, b: u8) -> u32
    ensures value { result ≡ with_digit n b }
    ensures upper_bound { result ≤ 999999999 }
{
    if n <= 99999999 && b.is_ascii_digit() {
        n * 10 + u32::from(b - b'0')
    } else {
        0
    }
}

/// The number that the columns of a line from `from` up to `past` end in, of nine digits at most.
pub fn number_in(line: &[u8], from: usize, past: usize) -> u32
    ensures value { result ≡ number_over line.now from (past - from) }
    ensures upper_bound { result ≤ 999999999 }
{
    let mut n = 0;
    for i in from..past {
        n = with_digit(n, byte_at(line, i));
    }
    n
}

/// The first place of a byte among the places of a line from `from` up to `to`, or `to`.
pub fn find(line: &[u8], from: usize, to: usize, b: u8) -> usize
    requires in_order { from ≤ to }
    requires in_line { to ≤ length line.now }
    ensures lower_bound { from ≤ result }
    ensures upper_bound { result ≤ to }
    ensures before { (k : ℕ) → from ≤ k → k < result → slice_index line.now k ≢ b }
    ensures found { result < to → slice_index line.now result ≡ b }
{
    // A range, since the places are those of the whole line: with `position` behind a cut the clause `before` did not close.
    for i in from..to {
        if line[i] == b {
            return i;
        }
    }
    to
}

/// The bytes as they are, between brackets.
pub fn write_in_brackets<W: Write>(out: &mut W, bytes: &[u8]) -> io::Result<()>
    ensures { OnOk result (Appends (W.contents out.old) (W.contents out.new) (codes "[" ++ bytes.now ++ codes "]")) }
{
    out.write_all(b"[")?;
    out.write_all(bytes)?;
    out.write_all(b"]")
}

#[cfg(test)]
mod tests {
    use super::*;

    // No clause says that memory is left.
    #[test]
    fn reads_at_most(rt: HostRuntime) -> io::Result<()> {
        let text = b"ENTRY".as_slice();
        for (most, want) in [(0, ""), (3, "ENT"), (5, "ENTRY"), (6, "ENTRY")] {
            let all = read_at_most(text, rt.alloc(), most)?;
            assert_eq!(rt; all.as_slice(), want.as_bytes(), "at {most}");
        }
        Ok(())
    }
}
