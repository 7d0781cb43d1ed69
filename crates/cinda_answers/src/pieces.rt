// The texts of a line as parts of the caller's lines.
ghost use Rattle.std.specs.Prelude.{◌≡◌, ◌+◌, ◌≤◌, length};
ghost use Rattle.laws.specs.Part.{Behind};
ghost use Rattle.paper_cinda.specs.Apart.{asked_for};
ghost use Rattle.paper_cinda.specs.Pieces.{piece_column, piece_width, piece_asked, piece_in};

use paper_cinda::types::{CindaNo, LinesAnswer, Piece, PieceAnswer};

// Its first column.
fn column_of(p: Piece) -> usize
    ensures { result ≡ piece_column p }
{
    match p {
        Piece::Whole => 1,
        Piece::Reaction => 9,
        Piece::Quantity => 24,
        Piece::Institute => 28,
        Piece::Reference => 58,
        Piece::Comment => 86,
    }
}

// How many it has.
fn width_of(p: Piece) -> usize
    ensures { result ≡ piece_width p }
{
    match p {
        Piece::Whole => 126,
        Piece::Reaction => 15,
        Piece::Quantity => 4,
        Piece::Institute => 6,
        Piece::Reference => 22,
        Piece::Comment => 40,
    }
}

// Where it stands in the lines.
pub fn piece_asked(lines: &[u8], answer: LinesAnswer, n: CindaNo, p: Piece) -> PieceAnswer
    requires { answer ≡ asked_for lines.now n }
    ensures { result ≡ piece_asked lines.now n p }
{
    let number = answer.number;
    if number != 0 {
        return PieceAnswer {
            answer,
            first: 0,
            length: 0,
        };
    }
    let column = column_of(p);
    let width = width_of(p);
    let index = n.0 as usize - 1;
    let before = index * 126;
    let behind = column - 1;
    let first = before + behind;
    PieceAnswer {
        answer,
        first,
        length: width,
    }
}

// The part itself.
pub fn piece_of<'a>(lines: &'a [u8], piece: PieceAnswer) -> &'a [u8]
    requires { piece.first + piece.length ≤ length lines.now }
    ensures behind { Behind lines.entry.ref_ptr result.ref_ptr piece.first }
    ensures result_value { result.now ≡ piece_in lines.now piece }
{
    let first = piece.first;
    let past = first + piece.length;
    &lines[first..past]
}
