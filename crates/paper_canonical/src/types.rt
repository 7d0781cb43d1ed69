// The types that the definitions name.

// An exponent that is written: whether it is below zero, how many digits it has, its size.
#[derive(Clone, Copy)]
pub struct Exponent {
    pub below: bool,
    pub long: usize,
    pub size: u64,
}

// How many digits stand before the point and behind it, zeros behind the coefficient's own digits included, and the
// exponent, if there is one.
#[derive(Clone, Copy)]
pub struct Layout {
    pub whole: usize,
    pub part: usize,
    pub zeros: usize,
    pub exponent: Option<Exponent>,
}

// What is to be written, whatever the width.
#[derive(Clone, Copy)]
pub struct Prepared {
    pub negative: bool,
    pub coefficient: u64,
    pub layout: Layout,
}

// Why nothing is written: the buffer is not eleven bytes; no field reads to the value.
#[derive(Clone, Copy, Debug, PartialEq, Eq)]
pub enum WriteError {
    NotEleven,
    NoField,
}
