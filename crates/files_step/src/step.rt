// From one record of a file on: the records of an entry, or one that belongs to none.
ghost use Rattle.std.specs.Prelude.{◌≡◌, ◌+◌, ◌-◌, ◌*◌, ◌/◌, ◌<◌};
ghost use Rattle.laws.specs.Blocks.{block_at};
ghost use Rattle.paper_record.specs.Columns.{Whole};
ghost use Rattle.paper_files.specs.File.{MOST-IN-FILE, OF-ENTRY, file_role};
ghost use Rattle.paper_files.specs.Numbers.{numbers_of};
ghost use Rattle.files_state.specs.ByNumbers.{step_outside};
ghost use Rattle.files_step.specs.Along.{Ahead, Gone};

use classes::class::Classes;
use columns_places::places::offset_of;
use entry_step::step::Judge;
use entry_verdict::verdict::is_done;
use files_outside::outside::outside_fault;
use files_roles::role::{OF_ENTRY, role_of, stage_after};
use files_state::state::{File, FileStep};
use judge_tables::tables::Tables;
use paper_record::types::Index;
use rules_state::state::MOST_RECORDS;

// The records of an entry from this one on, up to the entry's or the file's last, its 20,000th, or one at fault. The
// judge is a local of this loop: inside a struct that the loop hands on it would be copied at every record.
fn over_entry(f: File, tables: &Tables, file: &[u8]) -> FileStep
    requires ahead { Ahead file.now f }
    requires records_value { file_role (numbers_of f.stage f.entries f.judge.track.records)
        (block_at 81 file.now f.records.0) ≡ OF-ENTRY }
    ensures { Gone result.fault file.now f result.next }
{
    let n = file.len() / 81;
    let start = f.records;
    let mut j = f.judge;
    let mut i = start.0;
    while (i as usize) < n {
        let t = j.track;
        let own = t.records;
        if MOST_RECORDS <= own.0 {
            let here = f.on(i, j);
            return FileStep {
                fault: Ok(()),
                next: here,
            };
        }
        let at = i as usize;
        let from = at * 81;
        let past = from + 81;
        let first = from - offset_of(own);
        let stepped = j.step(tables, &file[first..from], &file[from..past]);
        match stepped {
            Ok(next) => {
                let phase = next.phase;
                if is_done(phase) {
                    let here = f.on(i, j);
                    let ended = here.behind(next);
                    return FileStep {
                        fault: Ok(()),
                        next: ended,
                    };
                }
                j = next;
            }
            Err(fault) => {
                let here = f.on(i, j);
                return FileStep {
                    fault: Err(fault),
                    next: here,
                };
            }
        }
        i += 1;
    }
    let here = f.on(i, j);
    FileStep {
        fault: Ok(()),
        next: here,
    }
}

// TRANS, ENDTRANS, or a record that is not due.
fn step_outside(f: File, classes: &Classes, role: usize, rec: &[u8]) -> FileStep
    requires whole { Whole rec.now }
    requires records_bound { f.records.0 < MOST-IN-FILE }
    ensures { result ≡ step_outside role f rec.now }
{
    let found = outside_fault(f.entries, classes, role, rec);
    match found {
        Ok(_) => {
            let stage = stage_after(role);
            let next = f.at_stage(stage);
            FileStep {
                fault: Ok(()),
                next,
            }
        }
        Err(fault) => FileStep {
            fault: Err(fault),
            next: f,
        },
    }
}

// From the record in hand on: all of an entry that has no fault, or one record that belongs to none.
pub fn onward(f: File, tables: &Tables, file: &[u8]) -> FileStep
    requires { Ahead file.now f }
    ensures { Gone result.fault file.now f result.next }
{
    let stage = f.stage;
    let j = f.judge;
    let t = j.track;
    let own = t.records;
    let records = f.records;
    let at = records.0 as usize;
    let from = at * 81;
    let past = from + 81;
    let role = role_of(stage, f.entries, own, &tables.names, &file[from..past]);
    if role == OF_ENTRY {
        return over_entry(f, tables, file);
    }
    step_outside(f, &tables.classes, role, &file[from..past])
}
