// The reference date of a line, columns 80 to 85: YYYYMM.
ghost use Rattle.std.specs.Prelude.{◌≡◌};
ghost use Rattle.paper_record.specs.System.{number_in};
ghost use Rattle.paper_cinda.specs.Layout.{WholeLine};
ghost use Rattle.paper_cinda.specs.Rules.{good_date};

use columns::fields::field;
use record::system::{digits_in, number_in};
use record_words::word::is_within;

// The year, whatever its columns hold.
pub fn year_of(line: &[u8]) -> u64
    requires { WholeLine line.now }
    ensures { result ≡ number_in line.now 79 4 }
{
    let f = field(line, 79);
    number_in(f, 0, 4)
}

// The month, whatever its columns hold.
pub fn month_of(line: &[u8]) -> u64
    requires { WholeLine line.now }
    ensures { result ≡ number_in line.now 83 2 }
{
    let f = field(line, 79);
    number_in(f, 4, 2)
}

// Whether the six columns are digits, and the month is one of 01 to 12.
pub fn is_date(line: &[u8]) -> bool
    requires { WholeLine line.now }
    ensures { result ≡ good_date line.now }
{
    let f = field(line, 79);
    digits_in(f, 0, 6) && is_within(1, 12, month_of(line))
}
