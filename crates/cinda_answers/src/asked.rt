// The question for a line, from what the check of the lines answered.
ghost use Rattle.std.specs.Prelude.{◌≡◌};
ghost use Rattle.paper_cinda.specs.Check.{said_of, check_of};
ghost use Rattle.paper_cinda.specs.Apart.{has_line, asked_for, line_asked};

use cinda_apart::apart::{line_of, no_line};
use paper_cinda::types::{CindaNo, LineAnswer, LinesAnswer};

// A number with no line and no column beside it.
pub fn said(number: u8) -> LinesAnswer
    ensures { result ≡ said_of number }
{
    let none = CindaNo(0);
    LinesAnswer {
        number,
        line: none,
        column: 0,
    }
}

// Whether there is a line with this number. They are numbered from 1.
fn has_line(lines: &[u8], n: CindaNo) -> bool
    ensures { result ≡ has_line lines.now n }
{
    let number = n.0 as usize;
    if number < 1 {
        return false;
    }
    let count = lines.len() / 126;
    number <= count
}

// What the lines are refused for; then 34.
pub fn asked(lines: &[u8], checked: LinesAnswer, n: CindaNo) -> LinesAnswer
    requires { checked ≡ check_of lines.now }
    ensures { result ≡ asked_for lines.now n }
{
    let number = checked.number;
    if number != 0 {
        return checked;
    }
    if has_line(lines, n) {
        return said(0);
    }
    said(34)
}

// The line, where there is one.
pub fn line_asked(lines: &[u8], answer: LinesAnswer, n: CindaNo) -> LineAnswer
    requires { answer ≡ asked_for lines.now n }
    ensures { result ≡ line_asked lines.now n }
{
    let number = answer.number;
    if number != 0 {
        let line = no_line();
        return LineAnswer { answer, line };
    }
    let index = n.0 as usize - 1;
    let first = index * 126;
    let past = first + 126;
    let line = line_of(&lines[first..past]);
    LineAnswer { answer, line }
}
