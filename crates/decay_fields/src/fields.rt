// What is asked: flag, nuclide and half-life, a group, one of its types, one of its energies.
ghost use Rattle.std.specs.Prelude.{◌≡◌};
ghost use Rattle.paper_decay_fields.specs.Parts.{NO-PART, or_none, word_in};
ghost use Rattle.paper_decay_fields.specs.Claims.{Lies};
ghost use Rattle.paper_decay_fields.specs.Asked.{NO-NUMBER, NO-GROUP, head_in, no_head, head_of, group_of, type_of, energy_of};

use crate::code::{goes_to, has_group, is_code};
use decay_parts::parts::{number_in, or_none, word_in, words_in};
use decay_parts::places::{
    abundance_at, energies_at, flag_at, groups_in, half_at, nuclide_at, types_at, unit_at,
};
use paper_decay_fields::types::{Group, Head, NumberPart, Part};
use paper_number::types::Reading;
use record_words::word::is_within;

fn no_part() -> Part
    ensures { result ≡ NO-PART }
{
    Part {
        first: 0,
        length: 0,
    }
}

fn no_number() -> NumberPart
    ensures { result ≡ NO-NUMBER }
{
    let part = no_part();
    NumberPart {
        part,
        value: Reading::Blank,
    }
}

fn no_group() -> Group
    ensures { result ≡ NO-GROUP }
{
    let abundance = no_number();
    Group {
        types: 0,
        energies: 0,
        abundance,
    }
}

// Of what is no code: how far it goes.
fn no_head(at: usize) -> Head
    ensures { result ≡ no_head at }
{
    let none = no_part();
    let half = no_number();
    Head {
        number: 50,
        at,
        flag: none,
        z: none,
        symbol: none,
        a: none,
        isomer: none,
        half,
        unit: none,
        groups: 0,
    }
}

// A word of the nuclide: Z, symbol, A and isomer, counted from 0.
fn nuclide_word(run: &[u8], nuclide: Part, k: usize) -> Part
    requires { Lies run.now nuclide }
    ensures { result ≡ or_none (word_in 45 run.now nuclide k) }
{
    let word = word_in(run, b'-', nuclide, k);
    or_none(word)
}

fn head_in(run: &[u8]) -> Head
    ensures { result ≡ head_in run.now }
{
    let nuclide = nuclide_at(run);
    let flag = or_none(flag_at(run));
    let z = nuclide_word(run, nuclide, 0);
    let symbol = nuclide_word(run, nuclide, 1);
    let a = nuclide_word(run, nuclide, 2);
    let isomer = nuclide_word(run, nuclide, 3);
    let half = number_in(run, half_at(run));
    let unit = or_none(unit_at(run));
    let groups = groups_in(run);
    Head {
        number: 0,
        at: 0,
        flag,
        z,
        symbol,
        a,
        isomer,
        half,
        unit,
        groups,
    }
}

// Flag, nuclide, half-life and unit, and how many groups there are.
pub fn head(run: &[u8]) -> Head
    ensures { result ≡ head_of run.now }
{
    if is_code(run) {
        return head_in(run);
    }
    no_head(goes_to(run))
}

// A group, counted from 1.
pub fn group(run: &[u8], group: u32) -> Group
    ensures { result ≡ group_of run.now group }
{
    if !has_group(run, group) {
        return no_group();
    }
    let types = words_in(run, b'/', types_at(run, group));
    let energies = words_in(run, b'/', energies_at(run, group));
    let abundance = number_in(run, abundance_at(run, group));
    Group {
        types,
        energies,
        abundance,
    }
}

// A type of a group, both counted from 1.
pub fn kind(run: &[u8], group: u32, at: u32) -> Part
    ensures { result ≡ type_of run.now group at }
{
    if !has_group(run, group) {
        return no_part();
    }
    let types = types_at(run, group);
    let n = words_in(run, b'/', types);
    if !is_within(1, n as u64, at as u64) {
        return no_part();
    }
    let i = at as usize - 1;
    let word = word_in(run, b'/', types, i);
    or_none(word)
}

// An energy of a group, both counted from 1.
pub fn energy(run: &[u8], group: u32, at: u32) -> NumberPart
    ensures { result ≡ energy_of run.now group at }
{
    if !has_group(run, group) {
        return no_number();
    }
    let energies = energies_at(run, group);
    let n = words_in(run, b'/', energies);
    if !is_within(1, n as u64, at as u64) {
        return no_number();
    }
    let i = at as usize - 1;
    let word = word_in(run, b'/', energies, i);
    number_in(run, word)
}
