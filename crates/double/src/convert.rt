// A decimal as a double, where one rounding makes it one.
ghost use Rattle.std.specs.Prelude.{◌≡◌};
ghost use Rattle.paper_double.specs.Double.{doubled, simple_said};
ghost use Rattle.paper_double.specs.Table.{TensLent};

use double_simple::simple::simple_of;
use double_tens::tens::tens;
use paper_double::types::Simple;
use paper_number::types::Reading;

// What a reading says, its number as a double, by the lent table.
fn doubled_by(t: &[f64; 23], said: Reading) -> Simple
    requires { TensLent t.now }
    ensures value { result ≡ doubled said }
    ensures result_value { simple_said result ≡ simple_said (doubled said) }
{
    match said {
        Reading::Blank => Simple::Blank,
        Reading::Number(d) => simple_of(t, d),
        Reading::Refused(_) => Simple::Blank,
    }
}

// What a reading says, its number as a double.
pub fn doubled(said: Reading) -> Simple
    ensures value { result ≡ doubled said }
    ensures result_value { simple_said result ≡ simple_said (doubled said) }
{
    let t = tens();
    doubled_by(&t, said)
}
