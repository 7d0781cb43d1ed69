// What a record of a file is, and the ordinal that goes with its fault. Both go by where the file stands, how many
// entries have ended, and how many records the entry in hand has before this one.
ghost use Rattle.std.specs.Prelude.{◌≡◌, ◌<◌};
ghost use Rattle.paper_record.specs.Columns.{Whole};
ghost use Rattle.paper_files.specs.File.{name_of, file_role, file_role_in, begins, ordinal_of, MOST-IN-FILE};
ghost use Rattle.paper_files.specs.declared.types.Stage.TheVariants.{Within};
ghost use Rattle.paper_files.specs.Numbers.{numbers_of, stage_after};

use columns::fields::field;
use paper_files::types::Stage;
use paper_record::types::Index;
use record_names::identifier::{ENDTRANS, ENTRY, Names, OTHER, TRANS};
use rules_roles::roles::NOT_DUE;
use rules_state::state::MOST_RECORDS;

// A record of an entry.
pub const OF_ENTRY: usize = OTHER + 9;

// The system identifier of a record.
fn name_of(names: &Names, rec: &[u8]) -> usize
    requires { Whole rec.now }
    ensures { result ≡ name_of rec.now }
{
    let f = field(rec, 0);
    names.identifier_of(f)
}

// The role of a record between TRANS and ENDTRANS. Its name is looked at between two entries only.
fn role_within(entries: u32, own: Index, names: &Names, rec: &[u8]) -> usize
    requires { Whole rec.now }
    ensures { result ≡ file_role_in Within (numbers_of Within entries own) (name_of rec.now) }
{
    if own.0 == 0 {
        if entries == 0 {
            return OF_ENTRY;
        }
        let k = name_of(names, rec);
        if k == ENDTRANS {
            return ENDTRANS;
        }
        return OF_ENTRY;
    }
    if MOST_RECORDS <= own.0 {
        return NOT_DUE;
    }
    OF_ENTRY
}

pub fn role_of(stage: Stage, entries: u32, own: Index, names: &Names, rec: &[u8]) -> usize
    requires { Whole rec.now }
    ensures { result ≡ file_role (numbers_of stage entries own) rec.now }
{
    match stage {
        Stage::Before => {
            let k = name_of(names, rec);
            if k == TRANS {
                return TRANS;
            }
            NOT_DUE
        }
        Stage::Within => role_within(entries, own, names, rec),
        Stage::Behind => NOT_DUE,
    }
}

// Whether an entry begins with the record, where none is in hand.
fn begins(stage: Stage, names: &Names, rec: &[u8]) -> bool
    requires { Whole rec.now }
    ensures { result ≡ begins (numbers_of stage 0 (record { 0 = 0 })) rec.now }
{
    match stage {
        Stage::Before => false,
        Stage::Within => {
            let k = name_of(names, rec);
            k == ENTRY
        }
        Stage::Behind => false,
    }
}

// The ordinal of the entry that the record belongs to, 0 where it belongs to none.
pub fn ordinal_of(stage: Stage, entries: u32, own: Index, names: &Names, rec: &[u8]) -> u32
    requires whole { Whole rec.now }
    requires entries_bound { entries < MOST-IN-FILE }
    ensures { result ≡ ordinal_of (numbers_of stage entries own) rec.now }
{
    let next = entries + 1;
    if own.0 != 0 {
        return next;
    }
    if begins(stage, names, rec) {
        return next;
    }
    0
}

// Where the file stands behind a record of no entry.
pub fn stage_after(role: usize) -> Stage
    ensures { result ≡ stage_after role }
{
    if role == TRANS {
        return Stage::Within;
    }
    Stage::Behind
}
