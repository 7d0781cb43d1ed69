// Says of each record of the input what the record layer says of it, a line for each. Column 80 tells how many of the
// six fields are to be taken as used.

#![tactic(auto)]

ghost use Rattle.std.specs.Prelude.{◌≤◌};
ghost use Rattle.paper_record.specs.Columns.{Whole};

use classes::class::Classes;
use columns::columns::has_line_feed;
use columns::fields::fields;
use columns_places::places::{place_of, records_for};
use number::form::NumberTables;
use paper_record::types::{LineNo, RecordNo};
use program_text::{EachPiece, read_full};
use record::system::{count_of, is_date, is_entry_n1, is_subent_n1, subentry_of};
use record_expected::expected::{
    entry_accession, five_digits, identification, identification_for, same_five,
    same_identification, sequence, subent_identification,
};
use record_faults::faults::{heading_fault, pointer_fault, unit_fault};
use record_names::identifier::Names;
use record_values::numbers::values_of;
use record_words::word::{is_keyword_blank, is_word};
use std::fmt;
use std::io::{self, Write};

#[derive(Clone, Copy)]
struct Counted(Option<u64>);

impl fmt::Display for Counted {
    fn fmt<W: fmt::Write>(&self, f: &mut fmt::Formatter<W>) -> fmt::Result {
        match self.0 {
            Some(n) => write!(f, "{n}"),
            None => f.write_str("none"),
        }
    }
}

// Writes each word of which it is so.
fn write_true<W: Write>(out: &mut W, words: &[(bool, &str)]) -> io::Result<()> {
    for &(is, word) in words {
        if is {
            write!(out, "{word}")?;
        }
    }
    Ok(())
}

// The classes of 64 bytes, from a first one that 64 divides.
fn write_classes<W: Write>(out: &mut W, t: &Classes, first: u8) -> io::Result<()> {
    for b in first..=first | 63 {
        write!(out, "{}", t.class_of(b))?;
    }
    writeln!(out)
}

// How many records a row of so many columns takes.
fn write_rows<W: Write>(out: &mut W) -> io::Result<()> {
    for columns in 1..19 {
        write!(out, " {}", records_for(columns))?;
    }
    writeln!(out)
}

// Where the columns of a line of a table with seven stand.
fn write_places<W: Write>(out: &mut W, line: u32) -> io::Result<()>
    requires le_line { 1 ≤ line }
    requires line_bound { line ≤ 2 }
{
    for column in 1..8 {
        let place = place_of(RecordNo(19), 7, LineNo(line), column);
        write!(out, " record {} field {}", place.at.0, place.field)?;
    }
    writeln!(out)
}

fn write_fields<W: Write>(out: &mut W, six: [[u8; 11]; 6], used: usize) -> io::Result<()> {
    let [first, n1, n2, ..] = six;
    write!(
        out,
        " N1 {} N2 {} subentry {} used {used} pointer {} heading {} unit {}",
        Counted(count_of(n1)),
        Counted(count_of(n2)),
        subentry_of(n1),
        pointer_fault(six, used),
        heading_fault(six, used),
        unit_fault(six, used)
    )?;
    write_true(
        out,
        &[
            (is_entry_n1(n1), " entry-N1"),
            (is_subent_n1(n1), " subent-N1"),
            (is_date(n2), " date"),
            (is_word(first), " word"),
            (is_keyword_blank(first), " no-keyword"),
        ],
    )
}

// The six fields as values, of DATA and then of COMMON.
fn write_values<W: Write>(
    out: &mut W,
    numbers: &NumberTables,
    six: [[u8; 11]; 6],
    used: usize,
) -> io::Result<()> {
    let data = values_of(numbers, six, used, true);
    let common = values_of(numbers, six, used, false);
    write!(out, " data {} numbers {}", data.fault, data.numbers)?;
    write!(out, " common {} numbers {}", common.fault, common.numbers)
}

fn write_identification<W: Write>(
    out: &mut W,
    rec: &[u8],
    n1: [u8; 11],
    number: u32,
) -> io::Result<()>
    requires { Whole rec.now }
{
    let here = identification(rec);
    let entry = identification_for(entry_accession(n1), 0);
    let subent = subent_identification(n1);
    write_true(
        out,
        &[
            (same_identification(here, entry), " as-entry"),
            (same_identification(here, subent), " as-subent"),
            (
                same_five(sequence(rec), five_digits(number)),
                " in-sequence",
            ),
        ],
    )
}

fn write_record<W: Write>(
    out: &mut W,
    t: &Classes,
    names: &Names,
    numbers: &NumberTables,
    rec: &[u8],
    number: u32,
) -> io::Result<()>
    requires { Whole rec.now }
{
    let six = fields(rec);
    let used = usize::from(rec[79] % 8);
    let name = names.identifier_of(six[0]);
    let permitted = t.permitted_to(rec);
    write!(out, "record {number} permitted {permitted} name {name}")?;
    write_fields(out, six, used)?;
    write_true(
        out,
        &[
            (names.is_end(name), " end"),
            (has_line_feed(rec), " line-feed"),
        ],
    )?;
    write_identification(out, rec, six[1], number)?;
    write_values(out, numbers, six, used)?;
    writeln!(out)
}

// A piece that cannot be written is passed over, and the next is tried: so what a write answers is dropped.
fn main(rt: HostRuntime) {
    let mut stdout = rt.stdout();
    let mut out = EachPiece(&mut stdout);
    let t = Classes::new();
    for first in [0, 64, 128, 192] {
        let _ = write_classes(&mut out, &t, first);
    }
    let _ = write_rows(&mut out);
    let _ = write_places(&mut out, 1);
    let _ = write_places(&mut out, 2);
    let names = Names::new();
    let numbers = NumberTables::new();
    let mut reader = rt.stdin();
    let mut rec = [0u8; 81];
    for number in 1..250 {
        if read_full(&mut reader, &mut rec) < 81 {
            break;
        }
        let _ = write_record(&mut out, &t, &names, &numbers, &rec, number);
    }
}
