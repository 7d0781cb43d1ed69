// Columns 1 to 66 of a record as six fields of eleven columns.
ghost use Rattle.std.specs.Prelude.{◌≡◌, ◌+◌, ◌≤◌, length};
ghost use Rattle.paper_record.specs.Columns.{Whole, columns_at};
ghost use Rattle.paper_record.specs.Fields.{fields_of, Holds};

// The `N` columns of a part from `at` on.
pub fn columns_at<const N: usize>(part: &[u8], at: usize) -> [u8; N]
    requires { at + N ≤ length part.now }
    ensures { result ≡ columns_at at N part.now }
{
    let mut columns = [0; N];
    columns.copy_from_slice(&part[at..at + N]);
    columns
}

// The eleven columns of a part from `at` on.
pub fn field(part: &[u8], at: usize) -> [u8; 11]
    requires { Holds part.now at }
    ensures { result ≡ columns_at at 11 part.now }
{
    columns_at(part, at)
}

// The six fields of a record.
pub fn fields(rec: &[u8]) -> [[u8; 11]; 6]
    requires { Whole rec.now }
    ensures { result ≡ fields_of rec.now }
{
    [
        field(rec, 0),
        field(rec, 11),
        field(rec, 22),
        field(rec, 33),
        field(rec, 44),
        field(rec, 55),
    ]
}
