// Lines written back: "puts their canonical field and keeps every other byte".
ghost use Rattle.std.specs.Prelude.{◌≡◌, length};
ghost use Rattle.paper_cinda.specs.Back.{written, stored};

use cinda_answers::back::write_checked;
use cinda_check::check::check;
use paper_cinda::types::LinesAnswer;

// 70 to 77; then 37, buffer shorter than the lines. A refused call stores nothing.
pub fn write_back(lines: &[u8], out: &mut [u8]) -> LinesAnswer
    ensures value { result ≡ written lines.now (length out.old) }
    ensures out_after { out.new ≡ stored lines.now out.old }
{
    let checked = check(lines);
    write_checked(lines, checked, out)
}
