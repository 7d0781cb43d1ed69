// The columns of a record: its line feed.
ghost use Rattle.std.specs.Prelude.{◌≡◌, ℕ};
ghost use Rattle.paper_record.specs.Columns.{Whole, has_line_feed};

// Whether byte 81 of a record is a line feed.
pub fn has_line_feed(rec: &[u8]) -> bool
    requires { Whole rec.now }
    ensures { result ≡ has_line_feed rec.now }
{
    rec[80] == b'\n'
}
