// The fields of a code, for host programs: asked of its run, or of any bytes.
ghost use Rattle.std.specs.Prelude.{◌≡◌};
ghost use Rattle.paper_decay_fields.specs.Asked.{head_of, group_of, type_of, energy_of};
ghost use Rattle.exports_fields.specs.Parts.{part_stored, part_word, value_stored};
ghost use Rattle.exports_fields.specs.Heads.{head_word, places_stored, half_stored};
ghost use Rattle.exports_fields.specs.Groups.{group_word, group_stored};

use decay_fields::fields::{energy, group as ask_group, head, kind};
use exports_fields::groups::put_group;
use exports_fields::heads::put_head;
use exports_fields::parts::{put_number_part, put_part};

// Flag, nuclide, half-life and unit, and how many groups there are. A refused call stores nothing.
#[unsafe(no_mangle)]
pub extern "C" fn x4_decay_head(run: &[u8], places: &mut [u64; 15], half: &mut [u64; 8]) -> u64
    ensures value { result ≡ head_word (head_of run.now) }
    ensures places_after { places.new ≡ places_stored places.old (head_of run.now) }
    ensures half_after { half.new ≡ half_stored half.old (head_of run.now) }
{
    let h = head(run);
    put_head(h, places, half)
}

// A group, counted from 1: 1 where there is one, else 0 and zeros.
#[unsafe(no_mangle)]
pub extern "C" fn x4_decay_group(
    run: &[u8],
    group: u32,
    numbers: &mut [u64; 4],
    abundance: &mut [u64; 8],
) -> u64
    ensures value { result ≡ group_word (group_of run.now group) }
    ensures numbers_after { numbers.new ≡ group_stored (group_of run.now group) }
    ensures abundance_after { abundance.new ≡ value_stored (group_of run.now group).abundance.value }
{
    let g = ask_group(run, group);
    put_group(g, numbers, abundance)
}

// A type of a group, both counted from 1: 1 where there is one, else 0 and zeros.
#[unsafe(no_mangle)]
pub extern "C" fn x4_decay_type(run: &[u8], group: u32, at: u32, place: &mut [u64; 2]) -> u64
    ensures value { result ≡ part_word (type_of run.now group at) }
    ensures place_after { place.new ≡ part_stored (type_of run.now group at) }
{
    let p = kind(run, group, at);
    put_part(p, place)
}

// An energy of a group, both counted from 1: 1 where there is one, else 0 and zeros.
#[unsafe(no_mangle)]
pub extern "C" fn x4_decay_energy(
    run: &[u8],
    group: u32,
    at: u32,
    place: &mut [u64; 2],
    value: &mut [u64; 8],
) -> u64
    ensures value { result ≡ part_word (energy_of run.now group at).part }
    ensures place_after { place.new ≡ part_stored (energy_of run.now group at).part }
    ensures value_after { value.new ≡ value_stored (energy_of run.now group at).value }
{
    let e = energy(run, group, at);
    put_number_part(e, place, value)
}
