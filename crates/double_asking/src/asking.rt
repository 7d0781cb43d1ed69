// The value question with its value as a double: the same answer, and what the field says as one of the three.
ghost use Rattle.std.specs.Prelude.{◌≡◌};
ghost use Rattle.paper_double_asking.specs.Ask.{double_asked, double_said};

use double_rows::rows::as_double;
use paper_double_asking::types::DoubleAnswer;
use paper_record::types::LineNo;
use questions::ask::value;

// The value in a line and a column of COMMON (section 1) or DATA (section 2) of a subentry.
pub fn double(entry: &[u8], number: u32, section: u32, line: LineNo, column: u32) -> DoubleAnswer
    ensures value { result ≡ double_asked entry.now number section line column }
    ensures result_value { double_said result ≡ double_said (double_asked entry.now number section line column) }
{
    let v = value(entry, number, section, line, column);
    as_double(v)
}
