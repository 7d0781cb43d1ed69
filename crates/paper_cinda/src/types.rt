// The types that the definitions name.
use paper_number::types::FieldRead;

// The number of a line, from 1. It counts no record of an entry and no line of a table.
#[derive(Clone, Copy)]
pub struct CindaNo(pub u32);

// What a call about lines answers: its number, and beside 71 to 77 the line and the column. Beside every other number, 0 too,
// both are 0.
#[derive(Clone, Copy)]
pub struct LinesAnswer {
    pub number: u8,
    pub line: CindaNo,
    pub column: u8,
}

// A of the target, or many nuclei.
#[derive(Clone, Copy)]
pub enum Mass {
    Number(u64),
    Many,
}

// A line taken apart: its numbers, and its single characters as they are. The longer texts are parts of the caller's line.
#[derive(Clone, Copy)]
pub struct Line {
    pub operation: u8,
    // Target Z, 2-4.
    pub z: u64,
    // Target A, 5-7.
    pub mass: Mass,
    pub isomer: u8,
    // The block, 34-37: its first column, a capital or digit, and its number, 35-37.
    pub area: u8,
    pub block: u64,
    pub sequence: u64,
    // The work type, 40.
    pub work: u8,
    // Column 41.
    pub reader: u8,
    // The least energy, 42-48, and the greatest, 49-55.
    pub least: FieldRead,
    pub greatest: FieldRead,
    // Column 56.
    pub hierarchy: u8,
    // The reference type, 57.
    pub kind: u8,
    // The reference date, 80-85.
    pub year: u64,
    pub month: u64,
}

// The answer to the question for a line.
#[derive(Clone, Copy)]
pub struct LineAnswer {
    pub answer: LinesAnswer,
    pub line: Line,
}

// A part of a line: all of it, or one of its five texts.
#[derive(Clone, Copy)]
pub enum Piece {
    Whole,
    Reaction,
    Quantity,
    Institute,
    Reference,
    Comment,
}

// The answer to the question for a part: its first byte in the caller's lines, and how many bytes it has.
#[derive(Clone, Copy)]
pub struct PieceAnswer {
    pub answer: LinesAnswer,
    pub first: usize,
    pub length: usize,
}
