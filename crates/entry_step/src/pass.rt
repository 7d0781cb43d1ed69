// One record of an entry that is judged already: its role and the next state, and no rule asked. Every way over an
// accepted entry takes this step.
ghost use Rattle.std.specs.Prelude.{◌≡◌, ◌+◌, ◌-◌, ◌*◌, ◌/◌, ◌<◌, length};
ghost use Rattle.paper_record.specs.Columns.{Whole};
ghost use Rattle.paper_rules.specs.Limits.{MOST-RECORDS};
ghost use Rattle.paper_rules.specs.Ranging.{Bounded};
ghost use Rattle.entry_step.specs.Pass.{pass_of, Walking, PassedAt};

use crate::step::Judge;
use columns::fields::fields;
use number::form::NumberTables;
use record_names::identifier::Names;
use rules_due::role::role;
use rules_values::values::values;

// The role of a record, and the state after it.
#[derive(Clone, Copy)]
pub struct Passed {
    pub role: usize,
    pub next: Judge,
}

impl Judge {
    fn pass_record(self, names: &Names, numbers: &NumberTables, rec: &[u8]) -> Passed
        requires bounded { Bounded self.track }
        requires records_bound { self.track.records.0 < MOST-RECORDS }
        requires whole { Whole rec.now }
        ensures { result ≡ pass_of self rec.now }
    {
        let fs = fields(rec);
        let f = fs[0];
        let k = names.identifier_of(f);
        let t = self.track;
        let p = self.phase;
        let role = role(t, names, p, k);
        let values = values(t, numbers, role, fs);
        let next = self.after(rec, role, fs, values);
        Passed { role, next }
    }

    // The record with the index i, from the state before it.
    pub fn pass(self, names: &Names, numbers: &NumberTables, entry: &[u8], i: usize) -> Passed
        requires walking { Walking self entry.now i }
        requires i_in_bounds { i < length entry.now / 81 }
        ensures { PassedAt result entry.now i }
    {
        let from = i * 81;
        let past = from + 81;
        self.pass_record(names, numbers, &entry[from..past])
    }
}
