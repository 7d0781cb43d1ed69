// The verdict on an entry, and why.
ghost use Rattle.std.specs.Prelude.{◌≡◌, ◌*◌, ◌<◌};
ghost use Rattle.paper_record.specs.Columns.{Whole};
ghost use Rattle.paper_rules.specs.Ranging.{Stands, seen_of};
ghost use Rattle.paper_reasons.specs.Reason.{stating, expecting, has_reason, reason_for, reason_at, explain};
ghost use Rattle.reasons_facts.specs.Lying.{Lying};
ghost use Rattle.reasons.specs.Asked.{InField, heading_reason, reason_by, Asked};

use crate::state::state_at;
use columns::fields::fields;
use entry::judge::judge;
use entry_step::step::Judge;
use paper_reasons::types::{Explained, Facts, Reason};
use paper_rules::types::{Ranges, Track};
use reasons_facts::facts::{count_facts, equal_facts};
use record_expected::expected::five_digits;
use record_names::identifier::Names;
use rules_due::role::role;
use rules_every::every::{expected_identification, expected_sequence};

pub fn stating(facts: Facts) -> Reason
    ensures { result ≡ stating facts }
{
    Reason {
        facts,
        characters: [b' '; 8],
    }
}

fn expecting_five(c: [u8; 5]) -> Reason
    ensures { result ≡ expecting c }
{
    Reason {
        facts: Facts::Expected,
        characters: [c[0], c[1], c[2], c[3], c[4], b' ', b' ', b' '],
    }
}

// Whether a refusal has a reason.
fn has_reason(number: u8) -> bool
    ensures { result ≡ has_reason number }
{
    if number == 5 {
        return true;
    }
    if number == 6 {
        return true;
    }
    if number == 8 {
        return true;
    }
    if number == 9 {
        return true;
    }
    if number == 13 {
        return true;
    }
    number == 14
}

// 13 and 14: the heading at a column.
fn heading_reason<'a>(
    g: Ranges,
    before: &'a [u8],
    fs: [[u8; 11]; 6],
    rec: &'a [u8],
    number: u8,
    column: u8,
) -> Reason
    requires lying { Lying g before.now }
    requires whole { Whole rec.now }
    requires in_field { InField number column }
    ensures { result
        ≡ heading_reason (seen_of before.now g) g fs rec.now number column }
{
    if number == 13 {
        let k = (column as usize - 1) / 11;
        let facts = equal_facts(g, before, fs, rec, k);
        return stating(facts);
    }
    if number == 14 {
        let m = (column as usize - 1) / 11;
        let f = fs[m];
        let pointer = f[10];
        return stating(Facts::Pointer(pointer));
    }
    stating(Facts::Alone)
}

// At a record that has the role and these fields.
fn reason_as<'a>(
    t: Track,
    g: Ranges,
    before: &'a [u8],
    role: usize,
    fs: [[u8; 11]; 6],
    rec: &'a [u8],
    number: u8,
    column: u8,
) -> Reason
    requires stands { Stands t g before.now }
    requires whole { Whole rec.now }
    requires in_field { InField number column }
    ensures { result
        ≡ reason_for t (seen_of before.now g) g role fs rec.now number column }
{
    if number == 5 {
        let characters = expected_identification(t, role, fs);
        return Reason {
            facts: Facts::Expected,
            characters,
        };
    }
    if number == 6 {
        let due = expected_sequence(t, role);
        let digits = five_digits(due);
        return expecting_five(digits);
    }
    if number == 8 {
        let facts = count_facts(t, role, fs, column);
        return stating(facts);
    }
    if number == 9 {
        let s = t.subentry;
        return stating(Facts::Previous(s.number));
    }
    heading_reason(g, before, fs, rec, number, column)
}

// At a record, from the state before it.
fn reason_at<'a>(
    names: &Names,
    j: Judge,
    before: &'a [u8],
    rec: &'a [u8],
    number: u8,
    column: u8,
) -> Reason
    requires stands { Stands j.track j.ranges before.now }
    requires whole { Whole rec.now }
    requires in_field { InField number column }
    ensures { result ≡ reason_by j before.now rec.now number column }
{
    let fs = fields(rec);
    let first = fs[0];
    let k = names.identifier_of(first);
    let t = j.track;
    let p = j.phase;
    let g = j.ranges;
    let role = role(t, names, p, k);
    reason_as(t, g, before, role, fs, rec, number, column)
}

// At the record with the index i of an entry.
fn reason_in(entry: &[u8], i: usize, number: u8, column: u8) -> Reason
    requires { Asked entry.now i number column }
    ensures { result ≡ reason_at entry.now i number column }
{
    let names = Names::new();
    let j = state_at(&names, entry, i);
    let from = i * 81;
    let past = from + 81;
    reason_at(
        &names,
        j,
        &entry[..from],
        &entry[from..past],
        number,
        column,
    )
}

pub fn explain(entry: &[u8]) -> Explained
    ensures { result ≡ explain entry.now }
{
    let verdict = judge(entry);
    let number = verdict.refusal;
    if !has_reason(number) {
        let alone = stating(Facts::Alone);
        return Explained {
            verdict,
            reason: alone,
        };
    }
    let at = verdict.record;
    let i = at.0 as usize - 1;
    let reason = reason_in(entry, i, number, verdict.column);
    Explained { verdict, reason }
}
