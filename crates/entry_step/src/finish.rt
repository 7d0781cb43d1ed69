// The verdict after the last record.
ghost use Rattle.std.specs.Prelude.{◌≡◌, ◌-◌};
ghost use Rattle.paper_rules.specs.Ranging.{Bounded};
ghost use Rattle.paper_entry.specs.Verdict.{refused};
ghost use Rattle.entry_step.specs.ByRanges.{finish_of};

use crate::step::Judge;
use columns_places::places::record_of;
use entry_verdict::verdict::{is_done, refused};
use paper_entry::types::Verdict;
use paper_record::types::RecordNo;

impl Judge {
    // The verdict after the last record.
    pub fn finish(self) -> Verdict
        requires { Bounded self.track }
        ensures { result ≡ finish_of self }
    {
        let p = self.phase;
        let t = self.track;
        let totals = t.totals;
        let past = t.records;
        if is_done(p) {
            return Verdict {
                refusal: 0,
                record: RecordNo(0),
                column: 0,
                totals,
                ordinal: 0,
            };
        }
        let at = record_of(past);
        refused(16, at, 0)
    }
}
