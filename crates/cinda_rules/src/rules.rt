// Refusals 71 to 73: line end, character, operation. Each rule gives the leftmost column at fault, 0 where there is none.
ghost use Rattle.std.specs.Prelude.{◌≡◌};
ghost use Rattle.paper_faults.specs.Fault.{leftmost};
ghost use Rattle.paper_cinda.specs.Layout.{WholeLine};
ghost use Rattle.paper_cinda.specs.Rules.{rule71, rule72, is_operation, rule73};

use classes::class::Classes;

// Line end.
pub(crate) fn rule71(line: &[u8]) -> u8
    requires { WholeLine line.now }
    ensures { result ≡ leftmost (rule71 line.now) }
{
    if line[125] == 10 {
        return 0;
    }
    126
}

// Character.
pub(crate) fn rule72(classes: &Classes, line: &[u8]) -> u8
    requires { WholeLine line.now }
    ensures { result ≡ leftmost (rule72 line.now) }
{
    let n = classes.permitted_in(line, 125);
    if n < 125 {
        let column = (n + 1) as u8;
        return column;
    }
    0
}

// "Operation is A, D or M".
fn is_operation(b: u8) -> bool
    ensures { result ≡ is_operation b }
{
    if b == b'A' {
        return true;
    }
    if b == b'D' {
        return true;
    }
    b == b'M'
}

// Operation.
pub(crate) fn rule73(line: &[u8]) -> u8
    requires { WholeLine line.now }
    ensures { result ≡ leftmost (rule73 line.now) }
{
    if is_operation(line[0]) {
        return 0;
    }
    1
}
