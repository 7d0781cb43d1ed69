// The types that the definitions name.

// Where the reading of a code stands: the place of the code, where in its field, how many characters or digits so far, whether a slash
// stands before, and whether an earlier place of the group is filled.
#[derive(Clone, Copy)]
pub struct Scan {
    pub place: u8,
    pub inner: u8,
    pub count: u8,
    pub again: bool,
    pub filled: bool,
}

// Where a reading stopped: behind `at` characters.
#[derive(Clone, Copy)]
pub struct Stop {
    pub scan: Scan,
    pub at: usize,
}

// What a code in its records comes to: 0 closed, 50 or 51, of a passage also 36; the record by its index, and the column.
#[derive(Clone, Copy)]
pub struct Coded {
    pub number: u8,
    pub at: usize,
    pub column: usize,
}

// What a record gives: the state behind its comma, or the answer.
#[derive(Clone, Copy)]
pub struct Turned {
    pub going: bool,
    pub scan: Scan,
    pub coded: Coded,
}
