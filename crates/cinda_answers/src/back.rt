// Lines written back, from what their check answered.
ghost use Rattle.std.specs.Prelude.{◌≡◌, length};
ghost use Rattle.paper_cinda.specs.Check.{check_of};
ghost use Rattle.paper_cinda.specs.Back.{written, stored};

use crate::asked::said;
use cinda_back_walk::lines::put_lines;
use paper_cinda::types::LinesAnswer;

// What the lines are refused for; then 37. A refused call stores nothing.
pub fn write_checked(lines: &[u8], checked: LinesAnswer, out: &mut [u8]) -> LinesAnswer
    requires { checked ≡ check_of lines.now }
    ensures value { result ≡ written lines.now (length out.old) }
    ensures out_after { out.new ≡ stored lines.now out.old }
{
    let number = checked.number;
    if number != 0 {
        return checked;
    }
    if out.len() < lines.len() {
        return said(37);
    }
    put_lines(lines, out);
    said(0)
}
