// One of the three as a double and as a number, and where it is stored.
ghost use Rattle.std.specs.Prelude.{◌≡◌, ◌≤◌};
ghost use Rattle.paper_double.specs.Double.{simple_said};
ghost use Rattle.exports_simple.specs.Doubles.{double_in, double_stored};

use paper_double::types::Simple;

// The double, 0.0 where it is none.
pub fn double_in(value: Simple) -> f64
    ensures { result ≡ double_in value }
{
    match value {
        Simple::Blank => 0.0,
        Simple::Double(x) => x,
        Simple::Outside(_) => 0.0,
    }
}

// Which of the three it is.
pub fn kind_of(value: Simple) -> u64
    ensures value { result ≡ (simple_said value).kind }
    ensures upper_bound { result ≤ 2 }
{
    match value {
        Simple::Blank => 0,
        Simple::Double(_) => 1,
        Simple::Outside(_) => 2,
    }
}

// Stores the double where there is one.
pub fn put_double(value: Simple, out: &mut [f64; 1])
    ensures { out.new ≡ double_stored out.old value }
{
    match value {
        Simple::Blank => {}
        Simple::Double(x) => {
            *out = [x];
        }
        Simple::Outside(_) => {}
    }
}
