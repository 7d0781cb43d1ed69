// Whether the rows of an entry may be stored.
ghost use Rattle.std.specs.Prelude.{◌≡◌};
ghost use Rattle.paper_index.specs.Making.{refusal_for};

// The number for an entry with this refusal and so many rows, and a slice of so many numbers: 0, 31 or 38.
pub fn refusal_for(refusal: u8, rows: u32, numbers: usize) -> u8
    ensures { result ≡ refusal_for refusal rows numbers }
{
    if refusal != 0 {
        return 31;
    }
    let needed = 5 * rows as usize;
    if numbers < needed {
        return 38;
    }
    0
}
