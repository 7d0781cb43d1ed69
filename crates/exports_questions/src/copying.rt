// The canonical copy, for host programs.
ghost use Rattle.std.specs.Prelude.{◌≡◌, length};
ghost use Rattle.paper_copy.specs.Call.{copied, stored_copy};
ghost use Rattle.exports_words.specs.Words.{answer_word};

use copy::copy::copy;
use exports_words::words::answer_word;

// Stores the copy of an entry in a buffer that may be longer: 0 done, else the word of refusal 31 or 37.
#[unsafe(no_mangle)]
pub extern "C" fn x4_copy(entry: &[u8], out: &mut [u8]) -> u64
    ensures value { result ≡ answer_word (copied entry.now (length out.old)) }
    ensures out_after { out.new ≡ stored_copy entry.now out.old }
{
    answer_word(copy(entry, out))
}
