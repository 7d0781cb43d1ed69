// The type of the answer.
use paper_double::types::Simple;
use paper_entry::types::Answer;

// The answer about a value as a double, and how many digits are written in its field.
#[derive(Clone, Copy)]
pub struct DoubleAnswer {
    pub answer: Answer,
    pub value: Simple,
    pub digits: u8,
}
