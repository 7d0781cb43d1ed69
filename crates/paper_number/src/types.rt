// The types that the definitions name.

// A value: its sign, a coefficient that ten does not divide, and a power of ten. Zero is (no, 0, 0).
#[derive(Clone, Copy)]
pub struct Decimal {
    pub negative: bool,
    pub coefficient: u64,
    pub power: i32,
}

// Blank, a number, or refused by document 01's number: 15 malformed, 40 not eleven bytes.
#[derive(Clone, Copy)]
pub enum Reading {
    Blank,
    Number(Decimal),
    Refused(u8),
}

// A number without its last zeros, and how many those were.
#[derive(Clone, Copy)]
pub struct Trim {
    pub number: u64,
    pub zeros: u32,
}

#[derive(Clone, Copy)]
pub enum Form {
    Blank,
    Number,
    Malformed,
}

// What a field says, and how many digits were written in it, from the first that is not zero to the last: 0 where it is
// no number.
#[derive(Clone, Copy)]
pub struct FieldRead {
    pub reading: Reading,
    pub digits: u8,
}

// The digits up to the point and behind it: their number, how many of them stand behind it, and the column that comes next.
#[derive(Clone, Copy)]
pub struct Front {
    pub at: usize,
    pub number: u64,
    pub places: u32,
}

// An exponent that is written, be it 0.
#[derive(Clone, Copy)]
pub struct Exponent {
    pub below: bool,
    pub size: u32,
}

// A number as it is spelt: its sign, its digits, how many of them stand behind the point, and its exponent, if one is
// written.
#[derive(Clone, Copy)]
pub struct SpeltNumber {
    pub negative: bool,
    pub number: u64,
    pub places: u32,
    pub exponent: Option<Exponent>,
}

// What the columns of a field spell.
#[derive(Clone, Copy)]
pub enum Spelt {
    Blank,
    Malformed,
    Number(SpeltNumber),
}

// No number: blank or malformed. Raised: a number with an exponent written, be it zero. Broken: a number without one
// that is below zero or has a fraction. Else the whole number.
#[derive(Clone, Copy)]
pub enum WholeRead {
    NoNumber,
    Raised,
    Broken,
    Whole(u64),
}
