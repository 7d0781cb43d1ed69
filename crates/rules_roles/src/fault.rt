// A fault of a record, and the columns where a rule finds one.
ghost use Rattle.std.specs.Prelude.{◌≡◌, ◌+◌, ◌*◌, ◌≤◌, ◌<◌};
ghost use Rattle.paper_rules.specs.Record.{field_column, pointer_column};
ghost use Rattle.paper_faults.specs.Fault.{column_at};

use paper_faults::types::Fault;

// The first column of the field k of n, 0 where k is not below n.
pub fn field_column(k: usize, n: usize) -> u8
    requires { n ≤ 6 }
    ensures { result ≡ column_at field_column k n }
{
    if k < n { (k * 11 + 1) as u8 } else { 0 }
}

// Its eleventh.
pub fn pointer_column(k: usize, n: usize) -> u8
    requires { n ≤ 6 }
    ensures { result ≡ column_at pointer_column k n }
{
    if k < n { (k * 11 + 11) as u8 } else { 0 }
}
