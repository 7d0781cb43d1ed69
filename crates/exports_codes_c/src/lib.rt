// The archive of `exports_codes` for C: the question for a code under DECAY-DATA. Each function has the name, the arguments and
// the promise of one there, and calls it.

#![tactic(auto)]

ghost use Rattle.std.specs.Prelude.{◌≡◌, length};
ghost use Rattle.paper_codes.specs.Asked.{code_asked, code_stored};
ghost use Rattle.exports_runs.specs.Codes.{code_word, length_stored};

// Stores the run of a code, counted from 1, in a buffer that may be longer, and how long it is. A refused call stores nothing.
#[unsafe(no_mangle)]
pub extern "C" fn x4_decay(
    entry: &[u8],
    subentry: u32,
    pointer: u8,
    code: u32,
    out: &mut [u8],
    long: &mut [u64; 1],
) -> u64
    ensures value { result ≡ code_word (code_asked entry.now subentry pointer code (length out.old)) }
    ensures out_after { out.new ≡ code_stored entry.now subentry pointer code out.old }
    ensures long_after { long.new
        ≡ length_stored long.old (code_asked entry.now subentry pointer code (length out.old)) }
{
    exports_codes::asking::x4_decay(entry, subentry, pointer, code, out, long)
}
