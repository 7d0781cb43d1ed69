// One record: each step takes the state so far and hands back the next.
ghost use Rattle.std.specs.Prelude.{◌≡◌, ◌-◌, ◌<◌};
ghost use Rattle.paper_record.specs.Columns.{Whole};
ghost use Rattle.paper_rules.specs.Limits.{MOST-RECORDS};
ghost use Rattle.paper_rules.specs.Ranging.{Bounded};
ghost use Rattle.paper_rules.specs.Values.{values_for};
ghost use Rattle.entry_step.specs.ByRanges.{start_judge, judge_after, Stepped, SteppedAs, Ready};

use columns::fields::fields;
use entry_counted::counted::track_after;
use entry_next::due::phase_after;
use entry_next::parts::ranges_after;
use judge_tables::tables::Tables;
use paper_faults::types::Fault;
use paper_record::types::{Index, Values};
use paper_rules::types::{Phase, Range, Ranges, Track};
use rules::order::fault;
use rules_due::role::role;
use rules_state::state::start_track;
use rules_values::values::values;

// The state before a record: what is due, what is counted, and the records that a rule may look back at.
#[derive(Clone, Copy)]
pub struct Judge {
    pub phase: Phase,
    pub track: Track,
    pub ranges: Ranges,
}

impl Judge {
    pub fn new() -> Self
        ensures { result ≡ start_judge }
    {
        let none = Range {
            from: Index(0),
            past: Index(0),
        };
        let ranges = Ranges {
            bib: none,
            under: none,
            bib001: none,
            common001: none,
            common: none,
            table: none,
        };
        let track = start_track();
        Judge {
            phase: Phase::Start,
            track,
            ranges,
        }
    }

    // The state after a record without fault.
    pub(crate) fn after(self, rec: &[u8], role: usize, fs: [[u8; 11]; 6], values: Values) -> Self
        requires bounded { Bounded self.track }
        requires records_bound { self.track.records.0 < MOST-RECORDS }
        requires whole { Whole rec.now }
        requires values_value { values ≡ values_for self.track role fs }
        ensures { result ≡ judge_after self role fs rec.now }
    {
        let t = self.track;
        let g = self.ranges;
        let phase = phase_after(role);
        let track = track_after(t, role, fs, values, rec);
        let ranges = ranges_after(g, t, role, fs);
        Judge {
            phase,
            track,
            ranges,
        }
    }

    // A record that has the role and these fields.
    fn step_as<'a>(
        self,
        tables: &Tables,
        before: &'a [u8],
        rec: &'a [u8],
        role: usize,
        fs: [[u8; 11]; 6],
    ) -> Result<Self, Fault>
        requires { Ready self before.now rec.now }
        ensures { SteppedAs result self before.now rec.now role fs }
    {
        let t = self.track;
        let g = self.ranges;
        let values = values(t, &tables.numbers, role, fs);
        fault(t, tables, g, before, rec, role, fs, values)?;
        let next = self.after(rec, role, fs, values);
        Ok(next)
    }

    // One record, with all that stands before it: the state after it, or its fault.
    pub fn step<'a>(self, tables: &Tables, before: &'a [u8], rec: &'a [u8]) -> Result<Self, Fault>
        requires { Ready self before.now rec.now }
        ensures { Stepped result self before.now rec.now }
    {
        let fs = fields(rec);
        let f = fs[0];
        let k = tables.names.identifier_of(f);
        let t = self.track;
        let p = self.phase;
        let role = role(t, &tables.names, p, k);
        self.step_as(tables, before, rec, role, fs)
    }
}
