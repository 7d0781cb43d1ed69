// Refusal 77, reference date. The rule gives the leftmost column at fault, 0 where there is none.
ghost use Rattle.std.specs.Prelude.{◌≡◌};
ghost use Rattle.paper_faults.specs.Fault.{leftmost};
ghost use Rattle.paper_cinda.specs.Layout.{WholeLine};
ghost use Rattle.paper_cinda.specs.Rules.{rule77};

use cinda_columns::date::is_date;

// Reference date.
pub fn rule77(line: &[u8]) -> u8
    requires { WholeLine line.now }
    ensures { result ≡ leftmost (rule77 line.now) }
{
    if is_date(line) {
        return 0;
    }
    80
}
