// The second way over an accepted file: the copy of each entry, stored in its place.
ghost use Rattle.std.specs.Prelude.{◌≡◌};
ghost use Rattle.files_copy_laws.specs.CopyFile.{copied_file_into};
ghost use Rattle.files_copy_laws.specs.Storing.{FileRoom};

use copy_records::records::copy_columns;
use copy_walk::walk::copy_records;
use files_parts::parts::entry_length;

const RECORD: usize = 81;

// Stores TRANS byte for byte, the copy of each entry, and what stands behind the last byte for byte.
pub fn copy_entries(file: &[u8], out: &mut [u8])
    requires { FileRoom file.now out.old }
    ensures { out.new ≡ copied_file_into file.now out.old }
{
    copy_columns(out, 0, file, 0, RECORD);
    let mut at = RECORD;
    let mut n = entry_length(file, at);
    while n != 0 {
        let past = at + n;
        copy_records(&file[at..past], &mut out[at..past]);
        at = past;
        n = entry_length(file, at);
    }
    let rest = file.len() - at;
    copy_columns(out, at, file, at, rest);
}
