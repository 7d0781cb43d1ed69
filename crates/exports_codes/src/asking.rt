// The question for a code of an entry, for host programs.
ghost use Rattle.std.specs.Prelude.{◌≡◌, length};
ghost use Rattle.paper_codes.specs.Asked.{code_asked, code_stored};
ghost use Rattle.exports_runs.specs.Codes.{code_word, length_stored};

use codes::code::code as ask_code;
use exports_runs::codes::put_code;

// Stores the run of a code, counted from 1, in a buffer that may be longer, and how long it is. A refused call stores nothing.
#[unsafe(no_mangle)]
pub extern "C" fn x4_decay(
    entry: &[u8],
    subentry: u32,
    pointer: u8,
    code: u32,
    out: &mut [u8],
    long: &mut [u64; 1],
) -> u64
    ensures value { result ≡ code_word (code_asked entry.now subentry pointer code (length out.old)) }
    ensures out_after { out.new ≡ code_stored entry.now subentry pointer code out.old }
    ensures long_after { long.new
        ≡ length_stored long.old (code_asked entry.now subentry pointer code (length out.old)) }
{
    let a = ask_code(entry, subentry, pointer, code, out);
    put_code(a, long)
}
