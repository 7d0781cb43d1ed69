// The types that the definitions name.
use paper_number::types::Decimal;

// Blank, a double, or a decimal that is outside the simple range.
#[derive(Clone, Copy)]
pub enum Simple {
    Blank,
    Double(f64),
    Outside(Decimal),
}
