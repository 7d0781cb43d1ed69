// What a record is: its role, from what is due and its system identifier.
ghost use Rattle.std.specs.Prelude.{◌≡◌, ◌-◌, ◌<◌};
ghost use Rattle.paper_rules.specs.Role.{only, either, bib_role, table_role, data_role, next_role, role_in};

use paper_rules::types::{Phase, Track};
use record_names::identifier::{
    BIB, COMMON, DATA, ENDBIB, ENDCOMMON, ENDDATA, ENDENTRY, ENDSUBENT, ENTRY, NOBIB, NOCOMMON,
    NODATA, NOSUBENT, Names, OTHER, SUBENT,
};
use rules_roles::roles::{
    COMMON_HEADING, COMMON_UNIT, COMMON_VALUE, DATA_HEADING, DATA_UNIT, DATA_VALUE, HEADINGS,
    NOT_DUE, TEXT, UNITS,
};

fn only(a: usize, k: usize) -> usize
    ensures { result ≡ only a k }
{
    if k == a {
        return a;
    }
    NOT_DUE
}

fn either(a: usize, b: usize, k: usize) -> usize
    ensures { result ≡ either a b k }
{
    if k == a {
        return a;
    }
    only(b, k)
}

fn bib_role(track: Track, k: usize) -> usize
    ensures { result ≡ bib_role track k }
{
    let due = track.bib;
    if track.section as u64 == due.records {
        return only(ENDBIB, k);
    }
    if k == OTHER {
        return TEXT;
    }
    NOT_DUE // text is due
}

fn table_role(
    track: Track,
    names: &Names,
    end: usize,
    heading: usize,
    unit: usize,
    value: usize,
    k: usize,
) -> usize
    ensures { result ≡ table_role end heading unit value track k }
{
    let t = track.table;
    let last = t.last;
    let line = t.line;
    if last.0 < line.0 {
        return only(end, k);
    }
    if names.is_end(k) {
        return NOT_DUE;
    }
    if t.row == HEADINGS {
        return heading;
    }
    if t.row == UNITS {
        return unit;
    }
    value
}

fn data_role(track: Track, k: usize) -> usize
    ensures { result ≡ data_role track k }
{
    let s = track.subentry;
    if s.number == 1 {
        return only(ENDSUBENT, k);
    }
    either(DATA, NODATA, k)
}

fn next_role(k: usize) -> usize
    ensures { result ≡ next_role k }
{
    if k == SUBENT {
        return SUBENT;
    }
    either(NOSUBENT, ENDENTRY, k)
}

// The role of a record whose system identifier is `k`.
pub fn role(track: Track, names: &Names, phase: Phase, k: usize) -> usize
    ensures { result ≡ role_in phase track k }
{
    match phase {
        Phase::Start => only(ENTRY, k),
        Phase::Opened => only(SUBENT, k),
        Phase::InSubentry => either(BIB, NOBIB, k),
        Phase::InBib => bib_role(track, k),
        Phase::AfterBib => either(COMMON, NOCOMMON, k),
        Phase::InCommon => table_role(
            track,
            names,
            ENDCOMMON,
            COMMON_HEADING,
            COMMON_UNIT,
            COMMON_VALUE,
            k,
        ),
        Phase::AfterCommon => data_role(track, k),
        Phase::InData => table_role(
            track,
            names,
            ENDDATA,
            DATA_HEADING,
            DATA_UNIT,
            DATA_VALUE,
            k,
        ),
        Phase::AfterData => only(ENDSUBENT, k),
        Phase::Between => next_role(k),
        Phase::Done => NOT_DUE,
    }
}
