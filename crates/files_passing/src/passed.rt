// The entries of a file, one behind the other.
ghost use Rattle.std.specs.Prelude.{◌≡◌, ◌+◌, ◌≤◌, length};
ghost use Rattle.paper_reasons.specs.File.{passed};

use files_parts::parts::entry_length;
use paper_reasons::types::Passed;

// Passes so many, or all where there are fewer.
pub fn pass_entries(file: &[u8], most: u32) -> Passed
    ensures value { result ≡ passed file.now most }
    ensures at_bound { result.at ≤ 81 + length file.now }
{
    let mut entries: u32 = 0;
    let mut at: usize = 81;
    while entries < most {
        let n = entry_length(file, at);
        if n == 0 {
            return Passed { entries, at };
        }
        at += n;
        entries += 1;
    }
    Passed { entries, at }
}
