// The judge: all records, one after the other, and the verdict.
ghost use Rattle.std.specs.Prelude.{◌≡◌, ◌+◌, ◌-◌, ◌*◌, ◌<◌};
ghost use Rattle.paper_entry.specs.Verdict.{refused};
ghost use Rattle.paper_entry.specs.Judging.{judge_of};

use columns_places::places::record_of;
use entry_step::step::Judge;
use entry_verdict::verdict::{length_good, refused};
use judge_tables::tables::Tables;
use paper_entry::types::Verdict;
use paper_record::types::RecordNo;

// Judges an entry.
pub fn judge(entry: &[u8]) -> Verdict
    ensures { result ≡ judge_of entry.now }
{
    let bytes = entry.len();
    if !length_good(bytes) {
        return refused(1, RecordNo(0), 0);
    }
    let n = bytes / 81;
    let tables = Tables::new();
    let mut j = Judge::new();
    let mut i = 0;
    while i < n {
        let from = i * 81;
        let past = from + 81;
        let t = j.track;
        let at = record_of(t.records);
        let stepped = j.step(&tables, &entry[..from], &entry[from..past]);
        match stepped {
            Ok(next) => {
                j = next;
            }
            Err(fault) => {
                return refused(fault.number, at, fault.column);
            }
        }
        i += 1;
    }
    j.finish()
}
