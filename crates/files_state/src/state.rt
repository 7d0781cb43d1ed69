// The state between two records of a file.
ghost use Rattle.std.specs.Prelude.{◌≡◌, ◌<◌};
ghost use Rattle.paper_files.specs.File.{added, MOST-IN-FILE};
ghost use Rattle.files_state.specs.ByNumbers.{start_state, state_at, behind_state, state_on, Room, Addable};

use entry_step::step::Judge;
use entry_verdict::verdict::is_done;
use paper_faults::types::Fault;
use paper_files::types::Stage;
use paper_record::types::Index;
use paper_rules::types::Totals;

// The records before the one in hand, from the file's start; the entries that have ended, and what they come to; the
// judge of the entry in hand, where there is none a new one.
#[derive(Clone, Copy)]
pub struct File {
    pub stage: Stage,
    pub records: Index,
    pub entries: u32,
    pub totals: Totals,
    pub judge: Judge,
}

// The fault of a record, and the state before it; or the state further on.
#[derive(Clone, Copy)]
pub struct FileStep {
    pub fault: Result<(), Fault>,
    pub next: File,
}

fn added(x: Totals, y: Totals) -> Totals
    requires { Addable x y }
    ensures { result ≡ added x y }
{
    let subentries = x.subentries + y.subentries;
    let keywords = x.keywords + y.keywords;
    let lines = x.lines + y.lines;
    let numbers = x.numbers + y.numbers;
    Totals {
        subentries,
        keywords,
        lines,
        numbers,
    }
}

impl File {
    pub fn new() -> Self
        ensures { result ≡ start_state }
    {
        let judge = Judge::new();
        File {
            stage: Stage::Before,
            records: Index(0),
            entries: 0,
            totals: Totals {
                subentries: 0,
                keywords: 0,
                lines: 0,
                numbers: 0,
            },
            judge,
        }
    }

    // The state behind TRANS or ENDTRANS.
    pub fn at_stage(self, stage: Stage) -> Self
        requires { self.records.0 < MOST-IN-FILE }
        ensures { result ≡ state_at self stage }
    {
        let before = self.records;
        let records = before.0 + 1;
        let totals = self.totals;
        let judge = Judge::new();
        File {
            stage,
            records: Index(records),
            entries: self.entries,
            totals,
            judge,
        }
    }

    // The state behind a record of an entry, whose judge then stands so.
    pub fn behind(self, j: Judge) -> Self
        requires { Room self j }
        ensures { result ≡ behind_state self j }
    {
        let stage = self.stage;
        let before = self.records;
        let records = before.0 + 1;
        let phase = j.phase;
        if is_done(phase) {
            let entries = self.entries + 1;
            let track = j.track;
            let totals = added(self.totals, track.totals);
            let judge = Judge::new();
            return File {
                stage,
                records: Index(records),
                entries,
                totals,
                judge,
            };
        }
        let totals = self.totals;
        File {
            stage,
            records: Index(records),
            entries: self.entries,
            totals,
            judge: j,
        }
    }

    // The state before the record with the index i of the entry in hand.
    pub fn on(self, i: u32, judge: Judge) -> Self
        ensures { result ≡ state_on self i judge }
    {
        let stage = self.stage;
        let totals = self.totals;
        File {
            stage,
            records: Index(i),
            entries: self.entries,
            totals,
            judge,
        }
    }
}
