// The types that the definitions name.
use paper_number::types::Reading;

// A part of the characters by its first, counted from 0, and its length; both are 0 where there is none.
#[derive(Clone, Copy)]
pub struct Part {
    pub first: usize,
    pub length: usize,
}

// A number's place, and what it reads to: blank where there is none.
#[derive(Clone, Copy)]
pub struct NumberPart {
    pub part: Part,
    pub value: Reading,
}

// The fields before the groups, and how many groups there are. `number` is 0, or 50 where the characters are no code; `at`
// characters then stand before the first that no code has there.
#[derive(Clone, Copy)]
pub struct Head {
    pub number: u8,
    pub at: usize,
    pub flag: Part,
    pub z: Part,
    pub symbol: Part,
    pub a: Part,
    pub isomer: Part,
    pub half: NumberPart,
    pub unit: Part,
    pub groups: usize,
}

// How many types and energies a group has, and its abundance; zeros and a blank where there is no such group.
#[derive(Clone, Copy)]
pub struct Group {
    pub types: usize,
    pub energies: usize,
    pub abundance: NumberPart,
}
