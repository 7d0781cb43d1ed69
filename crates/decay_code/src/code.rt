// Code j of a passage, and its run.
ghost use Rattle.std.specs.Prelude.{◌≡◌, cond, ltb, length};
ghost use Rattle.paper_decay.specs.Records.{said, scan_records};
ghost use Rattle.paper_codes.specs.Opening.{records_of};
ghost use Rattle.paper_codes.specs.Asked.{code_in, stored_in};

use crate::opening::opening;
use decay_records::records::scan_records;
use decay_run::records::put_records;
use number::form::NumberTables;
use paper_codes::types::CodeIn;
use paper_decay::types::Coded;

// The code that the record with the index `first` opens; 36 where there is no such record.
fn coded_from(passage: &[u8], first: usize) -> Coded
    ensures { result ≡ cond (ltb first (records_of passage.now))
        (scan_records passage.now first (records_of passage.now)) (said 36 0 0) }
{
    let n = passage.len() / 81;
    if first < n {
        let numbers = NumberTables::new();
        return scan_records(&numbers, passage, first, n);
    }
    Coded {
        number: 36,
        at: 0,
        column: 0,
    }
}

// Code j of a passage: its run is stored in front of what is lent, or nothing is.
pub fn code_in(passage: &[u8], j: u32, out: &mut [u8]) -> CodeIn
    ensures value { result ≡ code_in passage.now j (length out.old) }
    ensures out_after { out.new ≡ stored_in passage.now j out.old }
{
    let first = opening(passage, j);
    let coded = coded_from(passage, first);
    let number = coded.number;
    let at = coded.at;
    let column = coded.column;
    if number != 0 {
        return CodeIn {
            number,
            at,
            column,
            length: 0,
        };
    }
    // an empty part first: the length is known before a byte is stored
    let long = put_records(&mut out[0..0], passage, first, at, column);
    if out.len() < long {
        return CodeIn {
            number: 52,
            at: 0,
            column: 0,
            length: 0,
        };
    }
    let length = put_records(out, passage, first, at, column);
    CodeIn {
        number: 0,
        at: 0,
        column: 0,
        length,
    }
}
