// The call.
ghost use Rattle.std.specs.Prelude.{◌≡◌, length};
ghost use Rattle.paper_copy.specs.Call.{copied, stored_copy};

use copy_walk::walk::copy_records;
use entry::judge::judge;
use entry_verdict::answer::{answer_for, answer_of};
use paper_entry::types::Answer;

// The canonical copy of an entry, stored in a buffer that may be longer. The answer's number is 0, 31 or 37.
pub fn copy(entry: &[u8], out: &mut [u8]) -> Answer
    ensures { (result ≡ copied entry.now (length out.old))
        × (out.new ≡ stored_copy entry.now out.old) }
{
    let v = judge(entry);
    if v.refusal != 0 {
        return answer_for(v, 31);
    }
    if out.len() < entry.len() {
        return answer_of(37);
    }
    copy_records(entry, out);
    answer_of(0)
}
