// The questions for a line and for a part of it. Each checks the lines; an answer says its number, and of a part its place. A
// second call hands the part itself out of the caller's lines.
ghost use Rattle.std.specs.Prelude.{◌≡◌};
ghost use Rattle.laws.specs.Part.{Behind};
ghost use Rattle.paper_cinda.specs.Apart.{asked_for, line_asked};
ghost use Rattle.paper_cinda.specs.Pieces.{piece_asked, piece_in};

use cinda_answers::asked::{asked, line_asked};
use cinda_answers::pieces::{piece_asked, piece_of};
use cinda_check::check::check;
use paper_cinda::types::{CindaNo, LineAnswer, LinesAnswer, Piece, PieceAnswer};

// 70 to 77; then 34, no such line.
fn asked_for(lines: &[u8], n: CindaNo) -> LinesAnswer
    ensures { result ≡ asked_for lines.now n }
{
    let checked = check(lines);
    asked(lines, checked, n)
}

// A line taken apart.
pub fn line(lines: &[u8], n: CindaNo) -> LineAnswer
    ensures { result ≡ line_asked lines.now n }
{
    let answer = asked_for(lines, n);
    line_asked(lines, answer, n)
}

// Where a line or one of its texts stands.
pub fn piece(lines: &[u8], n: CindaNo, p: Piece) -> PieceAnswer
    ensures { result ≡ piece_asked lines.now n p }
{
    let answer = asked_for(lines, n);
    piece_asked(lines, answer, n, p)
}

// The part itself, in its place in the caller's lines; a refused one is empty.
pub fn piece_part<'a>(lines: &'a [u8], n: CindaNo, p: Piece) -> &'a [u8]
    ensures behind { Behind lines.entry.ref_ptr result.ref_ptr (piece_asked lines.now n p).first }
    ensures result_value { result.now ≡ piece_in lines.now (piece_asked lines.now n p) }
{
    let part = piece(lines, n, p);
    piece_of(lines, part)
}
