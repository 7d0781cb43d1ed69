// The codes of a passage in hand, for host programs.
ghost use Rattle.std.specs.Prelude.{◌≡◌, length};
ghost use Rattle.paper_codes.specs.Asked.{code_in, stored_in};
ghost use Rattle.exports_runs.specs.Codes.{code_word, length_stored, in_hand};

use decay_code::code::code_in;
use exports_runs::codes::put_code_in;

// Stores the run of a code, counted from 1, in a buffer that may be longer, and how long it is. A refused call stores nothing.
#[unsafe(no_mangle)]
pub extern "C" fn x4_decay_in(passage: &[u8], code: u32, out: &mut [u8], long: &mut [u64; 1]) -> u64
    ensures value { result ≡ code_word (in_hand (code_in passage.now code (length out.old))) }
    ensures out_after { out.new ≡ stored_in passage.now code out.old }
    ensures long_after { long.new
        ≡ length_stored long.old (in_hand (code_in passage.now code (length out.old))) }
{
    let x = code_in(passage, code, out);
    put_code_in(x, long)
}
