// Where the fields of a code stand in its characters.
ghost use Rattle.std.specs.Prelude.{◌≡◌, ◌-◌, ◌+◌, ◌≤◌, min, length};
ghost use Rattle.paper_decay_run.specs.Run.{fields_in};
ghost use Rattle.paper_decay_fields.specs.Parts.{field_at, flag_at, nuclide_from, nuclide_at, half_at, unit_at};
ghost use Rattle.paper_decay_fields.specs.Asked.{groups_in, types_at, energies_at, abundance_at};
ghost use Rattle.paper_decay_fields.specs.Claims.{Lies};

use crate::parts::{front_in, unspaced};
use decay_words::words::{count_words, word_at};
use paper_decay_fields::types::Part;

// The last character belongs to no field.
fn all_but_last(n: usize) -> usize
    ensures { result ≡ n - 1 }
{
    if n == 0 { 0 } else { n - 1 }
}

// The field k, counted from 0.
pub fn field_at(run: &[u8], k: usize) -> Part
    ensures { (result ≡ field_at run.now k) × Lies run.now result }
{
    let past = all_but_last(run.len());
    let word = word_at(&run[0..past], b',', k);
    unspaced(run, word)
}

// How many fields there are.
fn fields_in(run: &[u8]) -> usize
    ensures { result ≡ length (fields_in run.now) }
{
    let past = all_but_last(run.len());
    count_words(&run[0..past], b',')
}

// The flag behind two opening parentheses: digits and a point.
pub fn flag_at(run: &[u8]) -> Part
    ensures { (result ≡ flag_at run.now) × (result.length ≤ length run.now + 1) }
{
    let none = Part {
        first: 0,
        length: 0,
    };
    let n = run.len();
    if n < 2 {
        return none;
    }
    if run[1] != b'(' {
        return none;
    }
    let digits = word_at(&run[2..n], b'.', 0);
    Part {
        first: 2,
        length: digits.length + 1,
    }
}

// How many characters stand before the nuclide and its blanks.
fn nuclide_from(run: &[u8]) -> usize
    ensures { result ≡ nuclide_from run.now }
{
    let flag = flag_at(run);
    let length = flag.length;
    if length == 0 {
        return 1;
    }
    length + 3
}

fn least(a: usize, b: usize) -> usize
    ensures { (result ≡ min a b) × (result ≤ b) }
{
    if a < b { a } else { b }
}

// The nuclide.
pub fn nuclide_at(run: &[u8]) -> Part
    ensures { (result ≡ nuclide_at run.now) × Lies run.now result }
{
    let field = field_at(run, 0);
    let first = field.first;
    let length = field.length;
    let before = nuclide_from(run);
    let k = least(before, length);
    let rest = Part {
        first: first + k,
        length: length - k,
    };
    unspaced(run, rest)
}

// The half-life's number.
pub fn half_at(run: &[u8]) -> Part
    ensures { (result ≡ half_at run.now) × Lies run.now result }
{
    let field = field_at(run, 1);
    let first = field.first;
    let k = front_in(run, field);
    Part { first, length: k }
}

// The half-life's unit.
pub fn unit_at(run: &[u8]) -> Part
    ensures { (result ≡ unit_at run.now) × Lies run.now result }
{
    let field = field_at(run, 1);
    let first = field.first;
    let length = field.length;
    let k = front_in(run, field);
    Part {
        first: first + k,
        length: length - k,
    }
}

// How many groups there are.
pub fn groups_in(run: &[u8]) -> usize
    ensures { result ≡ groups_in run.now }
{
    let fields = fields_in(run);
    fields / 3
}

// The types of the group k.
pub fn types_at(run: &[u8], k: u32) -> Part
    requires { 1 ≤ k }
    ensures { (result ≡ types_at run.now k) × Lies run.now result }
{
    let at = 3 * (k as usize) - 1;
    field_at(run, at)
}

// Its energies.
pub fn energies_at(run: &[u8], k: u32) -> Part
    ensures { (result ≡ energies_at run.now k) × Lies run.now result }
{
    let at = 3 * (k as usize);
    field_at(run, at)
}

// Its abundance.
pub fn abundance_at(run: &[u8], k: u32) -> Part
    ensures { (result ≡ abundance_at run.now k) × Lies run.now result }
{
    let at = 3 * (k as usize) + 1;
    field_at(run, at)
}
