// The types that the definitions name.

// The first field at fault, or 6, and how many numbers stand before it.
#[derive(Clone, Copy)]
pub struct Values {
    pub fault: usize,
    pub numbers: u32,
}

#[derive(Clone, Copy)]
pub struct RecordNo(pub u32);

#[derive(Clone, Copy)]
pub struct LineNo(pub u32);

#[derive(Clone, Copy)]
pub struct Index(pub u32);

// A record, and one of its six fields, 0 to 5.
#[derive(Clone, Copy)]
pub struct Place {
    pub at: RecordNo,
    pub field: u32,
}
