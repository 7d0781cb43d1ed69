// The verdict behind the last record of a file.
ghost use Rattle.std.specs.Prelude.{◌≡◌, ◌≤◌};
ghost use Rattle.paper_files.specs.File.{MOST-IN-FILE, file_end};
ghost use Rattle.paper_files.specs.Numbers.{ending_of};

use columns_places::places::record_of;
use entry_verdict::verdict::refused;
use paper_entry::types::Verdict;
use paper_files::types::Stage;
use paper_record::types::{Index, RecordNo};
use paper_rules::types::Totals;

pub fn ending_of(stage: Stage, records: Index, totals: Totals) -> Verdict
    requires { records.0 ≤ MOST-IN-FILE }
    ensures { result ≡ file_end (ending_of stage records totals) }
{
    let at = record_of(records);
    match stage {
        Stage::Before => refused(16, at, 0),
        Stage::Within => refused(16, at, 0),
        Stage::Behind => Verdict {
            refusal: 0,
            record: RecordNo(0),
            column: 0,
            totals,
            ordinal: 0,
        },
    }
}
