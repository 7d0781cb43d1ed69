// What is stored of a group.
ghost use Rattle.std.specs.Prelude.{◌≡◌};
ghost use Rattle.exports_fields.specs.Parts.{value_stored};
ghost use Rattle.exports_fields.specs.Groups.{group_word, group_stored};

use crate::parts::put_value;
use paper_decay_fields::types::Group;

// Whether there is such a group.
fn group_word(g: Group) -> u64
    ensures { result ≡ group_word g }
{
    if g.types != 0 {
        return 1;
    }
    if g.energies != 0 {
        return 1;
    }
    if g.abundance.part.length != 0 {
        return 1;
    }
    0
}

// Stores a group, and returns whether there is one.
pub fn put_group(g: Group, numbers: &mut [u64; 4], abundance: &mut [u64; 8]) -> u64
    ensures value { result ≡ group_word g }
    ensures numbers_after { numbers.new ≡ group_stored g }
    ensures abundance_after { abundance.new ≡ value_stored g.abundance.value }
{
    let types = g.types;
    let energies = g.energies;
    let share = g.abundance;
    let part = share.part;
    let reading = share.value;
    *numbers = [
        types as u64,
        energies as u64,
        part.first as u64,
        part.length as u64,
    ];
    put_value(reading, abundance);
    group_word(g)
}
