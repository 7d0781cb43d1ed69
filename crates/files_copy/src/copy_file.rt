// The call.
ghost use Rattle.std.specs.Prelude.{◌≡◌, length};
ghost use Rattle.files_copy_laws.specs.CopyFile.{copied_file, stored_file};

use entry_verdict::answer::{answer_for, answer_of};
use files::judge_file::judge_file;
use files_copy_walk::walk::copy_entries;
use paper_entry::types::Answer;

// The canonical copy of a file, stored in a buffer that may be longer. The answer's number is 0, 31 or 37.
pub fn copy_file(file: &[u8], out: &mut [u8]) -> Answer
    ensures { (result ≡ copied_file file.now (length out.old))
        × (out.new ≡ stored_file file.now out.old) }
{
    let v = judge_file(file);
    if v.refusal != 0 {
        return answer_for(v, 31);
    }
    if out.len() < file.len() {
        return answer_of(37);
    }
    copy_entries(file, out);
    answer_of(0)
}
