// The verdict on a file, and why.
ghost use Rattle.std.specs.Prelude.{◌≡◌, ◌+◌, ◌*◌, ◌≤◌, length};
ghost use Rattle.paper_files.specs.File.{MOST-IN-FILE, judge_file};
ghost use Rattle.paper_reasons.specs.File.{reason_at_ending, file_reason, explain_file};

use crate::within::reason_within;
use columns::fields::fields;
use files::judge_file::judge_file;
use files_passing::passed::pass_entries;
use paper_entry::types::Verdict;
use paper_reasons::types::{Explained, Facts, Reason};
use reasons::explain::stating;
use record::system::{count_of, number_of};

// ENDTRANS, with the index i: what its N1 says, and how many entries there are.
fn reason_at_ending(file: &[u8], i: usize) -> Reason
    requires i_in_bounds { (i + 1) * 81 ≤ length file.now }
    requires i_bound { i ≤ MOST-IN-FILE }
    ensures { result ≡ reason_at_ending file.now i }
{
    let from = i * 81;
    let past = from + 81;
    let fs = fields(&file[from..past]);
    let f = fs[1];
    let announced = number_of(count_of(f));
    let p = pass_entries(file, i as u32);
    let entries = p.entries as u64;
    stating(Facts::Count(announced, entries))
}

fn file_reason(file: &[u8], v: Verdict) -> Reason
    requires { v ≡ judge_file file.now }
    ensures { result ≡ file_reason file.now v }
{
    let at = v.record;
    let ordinal = v.ordinal;
    if ordinal == 0 {
        if v.refusal == 8 {
            let i = at.0 as usize - 1;
            return reason_at_ending(file, i);
        }
        return stating(Facts::Alone);
    }
    let p = pass_entries(file, ordinal - 1);
    let first = p.at;
    let past = at.0 as usize * 81;
    reason_within(file, first, past)
}

pub fn explain_file(file: &[u8]) -> Explained
    ensures { result ≡ explain_file file.now }
{
    let verdict = judge_file(file);
    let reason = file_reason(file, verdict);
    Explained { verdict, reason }
}
