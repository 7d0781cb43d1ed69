// The judge of a file: all records, one after the other, and the verdict.
ghost use Rattle.std.specs.Prelude.{◌≡◌, ◌+◌, ◌-◌, ◌*◌, ◌<◌};
ghost use Rattle.paper_files.specs.File.{judge_file};

use columns_places::places::record_of;
use entry_verdict::verdict::{refused, refused_within};
use files_ending::limits::file_length_good;
use files_state::state::File;
use files_step::step::onward;
use judge_tables::tables::Tables;
use paper_entry::types::Verdict;
use paper_record::types::RecordNo;

// Judges a file.
pub fn judge_file(file: &[u8]) -> Verdict
    ensures { result ≡ judge_file file.now }
{
    let bytes = file.len();
    if !file_length_good(bytes) {
        return refused(1, RecordNo(0), 0);
    }
    let n = bytes / 81;
    let tables = Tables::new();
    let mut f = File::new();
    let mut i = 0;
    while i < n {
        let s = onward(f, &tables, file);
        let next = s.next;
        let found = s.fault;
        match found {
            Ok(_) => {
                f = next;
            }
            Err(fault) => {
                let reached = next.records;
                let at = record_of(reached);
                let before = reached.0 as usize;
                let from = before * 81;
                let past = from + 81;
                let ordinal = next.ordinal(&tables.names, &file[from..past]);
                return refused_within(ordinal, fault.number, at, fault.column);
            }
        }
        let records = f.records;
        i = records.0 as usize;
    }
    f.finish()
}
