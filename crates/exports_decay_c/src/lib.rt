// The archive of `exports_decay` for C: codes under DECAY-DATA. Each function has the name, the arguments and
// the promise of one there, and calls it.

#![tactic(auto)]

ghost use Rattle.std.specs.Prelude.{◌≡◌, length};
ghost use Rattle.paper_decay_fields.specs.Asked.{head_of, group_of, type_of, energy_of};
ghost use Rattle.exports_fields.specs.Parts.{part_stored, part_word, value_stored};
ghost use Rattle.exports_fields.specs.Heads.{head_word, places_stored, half_stored};
ghost use Rattle.exports_fields.specs.Groups.{group_word, group_stored};
ghost use Rattle.paper_codes.specs.Asked.{code_in, stored_in};
ghost use Rattle.exports_runs.specs.Codes.{code_word, length_stored, in_hand};

// Flag, nuclide, half-life and unit, and how many groups there are. A refused call stores nothing.
#[unsafe(no_mangle)]
pub extern "C" fn x4_decay_head(run: &[u8], places: &mut [u64; 15], half: &mut [u64; 8]) -> u64
    ensures value { result ≡ head_word (head_of run.now) }
    ensures places_after { places.new ≡ places_stored places.old (head_of run.now) }
    ensures half_after { half.new ≡ half_stored half.old (head_of run.now) }
{
    exports_decay::fields::x4_decay_head(run, places, half)
}

// A group, counted from 1: 1 where there is one, else 0 and zeros.
#[unsafe(no_mangle)]
pub extern "C" fn x4_decay_group(
    run: &[u8],
    group: u32,
    numbers: &mut [u64; 4],
    abundance: &mut [u64; 8],
) -> u64
    ensures value { result ≡ group_word (group_of run.now group) }
    ensures numbers_after { numbers.new ≡ group_stored (group_of run.now group) }
    ensures abundance_after { abundance.new ≡ value_stored (group_of run.now group).abundance.value }
{
    exports_decay::fields::x4_decay_group(run, group, numbers, abundance)
}

// A type of a group, both counted from 1: 1 where there is one, else 0 and zeros.
#[unsafe(no_mangle)]
pub extern "C" fn x4_decay_type(run: &[u8], group: u32, at: u32, place: &mut [u64; 2]) -> u64
    ensures value { result ≡ part_word (type_of run.now group at) }
    ensures place_after { place.new ≡ part_stored (type_of run.now group at) }
{
    exports_decay::fields::x4_decay_type(run, group, at, place)
}

// An energy of a group, both counted from 1: 1 where there is one, else 0 and zeros.
#[unsafe(no_mangle)]
pub extern "C" fn x4_decay_energy(
    run: &[u8],
    group: u32,
    at: u32,
    place: &mut [u64; 2],
    value: &mut [u64; 8],
) -> u64
    ensures value { result ≡ part_word (energy_of run.now group at).part }
    ensures place_after { place.new ≡ part_stored (energy_of run.now group at).part }
    ensures value_after { value.new ≡ value_stored (energy_of run.now group at).value }
{
    exports_decay::fields::x4_decay_energy(run, group, at, place, value)
}

// Stores the run of a code, counted from 1, in a buffer that may be longer, and how long it is. A refused call stores nothing.
#[unsafe(no_mangle)]
pub extern "C" fn x4_decay_in(passage: &[u8], code: u32, out: &mut [u8], long: &mut [u64; 1]) -> u64
    ensures value { result ≡ code_word (in_hand (code_in passage.now code (length out.old))) }
    ensures out_after { out.new ≡ stored_in passage.now code out.old }
    ensures long_after { long.new
        ≡ length_stored long.old (in_hand (code_in passage.now code (length out.old))) }
{
    exports_decay::passages::x4_decay_in(passage, code, out, long)
}
