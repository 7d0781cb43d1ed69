// The type that the definitions name.

// What a rule finds: its refusal number and its column.
#[derive(Clone, Copy)]
pub struct Fault {
    pub number: u8,
    pub column: u8,
}
