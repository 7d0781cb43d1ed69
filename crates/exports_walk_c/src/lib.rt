// The archive of `exports_walk` for C: values in order. Each function has the name, the arguments and
// the promise of one there, and calls it.

#![tactic(auto)]

ghost use Rattle.std.specs.Prelude.{◌≡◌};
ghost use Rattle.paper_walk.specs.Walk.{start_of, step_of};
ghost use Rattle.exports_words.specs.Words.{answer_word};
ghost use Rattle.exports_places.specs.Walks.{walk_numbers, walk_stored, walk_in, place_numbers, given_answer, given_stored};

// A walk over the values of COMMON (section 1) or DATA (section 2) of a subentry.
#[unsafe(no_mangle)]
pub extern "C" fn x4_walk(entry: &[u8], subentry: u32, section: u32, walk: &mut [u32; 5]) -> u64
    ensures value { result ≡ answer_word (start_of entry.now subentry section).answer }
    ensures walk_after { walk.new ≡ walk_stored walk.old (start_of entry.now subentry section) }
{
    exports_walk::walking::x4_walk(entry, subentry, section, walk)
}

// The next value of a walk with its line and column, or that it is done.
#[unsafe(no_mangle)]
pub extern "C" fn x4_walk_next(
    entry: &[u8],
    walk: &mut [u32; 5],
    place: &mut [u64; 3],
    value: &mut [u64; 8],
) -> u64
    ensures value { result ≡ answer_word (given_answer (step_of entry.now (walk_in walk.old)).given) }
    ensures walk_after { walk.new ≡ walk_numbers (step_of entry.now (walk_in walk.old)).walk }
    ensures place_after { place.new ≡ place_numbers (step_of entry.now (walk_in walk.old)).given }
    ensures value_after { value.new
        ≡ given_stored value.old (step_of entry.now (walk_in walk.old)).given }
{
    exports_walk::walking::x4_walk_next(entry, walk, place, value)
}
