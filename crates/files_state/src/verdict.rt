// What a verdict on a file takes from the state: the ordinal at a fault, and all of it behind the last record.
ghost use Rattle.std.specs.Prelude.{◌≡◌, [], ◌≤◌, ◌<◌};
ghost use Rattle.paper_record.specs.Columns.{Whole};
ghost use Rattle.paper_files.specs.File.{MOST-IN-FILE, ordinal_of, file_end};
ghost use Rattle.files_state.specs.ByNumbers.{context_of};

use crate::state::File;
use files_ending::ending::ending_of;
use files_roles::role::ordinal_of;
use paper_entry::types::Verdict;
use record_names::identifier::Names;

impl File {
    // The ordinal of the entry that the record belongs to, 0 where it belongs to none.
    pub fn ordinal(self, names: &Names, rec: &[u8]) -> u32
        requires whole { Whole rec.now }
        requires entries_bound { self.entries < MOST-IN-FILE }
        ensures { result ≡ ordinal_of (context_of [] self) rec.now }
    {
        let stage = self.stage;
        let j = self.judge;
        let t = j.track;
        let own = t.records;
        ordinal_of(stage, self.entries, own, names, rec)
    }

    // The verdict after the last record.
    pub fn finish(self) -> Verdict
        requires { self.records.0 ≤ MOST-IN-FILE }
        ensures { result ≡ file_end (context_of [] self) }
    {
        let stage = self.stage;
        let records = self.records;
        let totals = self.totals;
        ending_of(stage, records, totals)
    }
}
