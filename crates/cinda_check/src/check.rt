// The check of lines: their length, then line by line.
ghost use Rattle.std.specs.Prelude.{◌≡◌};
ghost use Rattle.paper_cinda.specs.Check.{good_length, said_at, check_of};

use cinda_rules::order::line_fault;
use classes::class::Classes;
use number::form::NumberTables;
use paper_cinda::types::{CindaNo, LinesAnswer};

// Whole lines, 1 to 20,000 of them.
pub fn length_good(bytes: usize) -> bool
    ensures { result ≡ good_length bytes }
{
    bytes != 0 && bytes % 126 == 0 && bytes <= 2520000
}

// An answer with a number, a line and a column; lines are numbered from 1.
pub fn said_at(number: u8, line: u32, column: u8) -> LinesAnswer
    ensures { result ≡ said_at number line column }
{
    LinesAnswer {
        number,
        line: CindaNo(line),
        column,
    }
}

// Checks lines.
pub fn check(lines: &[u8]) -> LinesAnswer
    ensures { result ≡ check_of lines.now }
{
    let bytes = lines.len();
    if !length_good(bytes) {
        return said_at(70, 0, 0);
    }
    let n = bytes / 126;
    let classes = Classes::new();
    let numbers = NumberTables::new();
    for i in 0..n {
        let first = i * 126;
        let past = first + 126;
        let found = line_fault(&classes, &numbers, &lines[first..past]);
        match found {
            Ok(_) => {}
            Err(fault) => {
                let line = (i + 1) as u32;
                return said_at(fault.number, line, fault.column);
            }
        }
    }
    said_at(0, 0, 0)
}
