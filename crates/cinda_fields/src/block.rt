// Refusal 75, block or sequence. The rule gives the leftmost column at fault, 0 where there is none.
ghost use Rattle.std.specs.Prelude.{◌≡◌};
ghost use Rattle.paper_faults.specs.Fault.{leftmost};
ghost use Rattle.paper_cinda.specs.Layout.{WholeLine};
ghost use Rattle.paper_cinda.specs.Rules.{good_block, rule75};

use cinda_columns::integer::is_integer_at;
use record::system::is_capital_or_digit;

// "a block is a capital or digit and a number".
fn is_good_block(line: &[u8]) -> bool
    requires { WholeLine line.now }
    ensures { result ≡ good_block line.now }
{
    if !is_capital_or_digit(line[33]) {
        return false;
    }
    is_integer_at(line, 34, 3)
}

// Block or sequence.
pub fn rule75(line: &[u8]) -> u8
    requires { WholeLine line.now }
    ensures { result ≡ leftmost (rule75 line.now) }
{
    if !is_good_block(line) {
        return 34;
    }
    if !is_integer_at(line, 37, 2) {
        return 38;
    }
    0
}
