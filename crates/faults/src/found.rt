// A rule's finding, as an answer that ends the rules where there is one.
ghost use Rattle.std.specs.Prelude.{◌≡◌};
ghost use Rattle.paper_faults.specs.Fault.{faultless, or_else};

use paper_faults::types::Fault;

// The fault of a rule that finds this column; 0 is none.
pub fn found(number: u8, column: u8) -> Result<(), Fault>
    ensures { result ≡ or_else number column faultless }
{
    if column == 0 {
        return Ok(());
    }
    Err(Fault { number, column })
}
