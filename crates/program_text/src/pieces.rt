// A writer for programs that write what they can.
ghost use Rattle.std.specs.Prelude.{◌≡◌, length};

use std::io::{self, Write};

/// Tries each piece of a text, whatever became of those before it, and says that it is written.
#[derive(Drop)]
pub struct EachPiece<'a, W>(pub &'a mut W);

impl<W: Write> EachPiece<'_, W> {
    /// Tries a piece, and says how long it is.
    pub fn tried(&mut self, piece: &[u8]) -> usize
        ensures { result ≡ length piece.now }
    {
        let _ = self.0.write_all(piece);
        piece.len()
    }
}

impl<W: Write> Write for EachPiece<'_, W> {
    fn write(&mut self, buf: &[u8]) -> io::Result<usize> {
        Ok(self.tried(buf))
    }

    fn flush(&mut self) -> io::Result<()> {
        self.0.flush()
    }
}
