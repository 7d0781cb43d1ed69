// The fields of characters: one line with those before the groups, and one for each group.
use decay_fields::fields::{energy, group, head, kind};
use paper_decay_fields::types::{Head, NumberPart, Part};
use program_answer::say_reading;
use program_text::{say, say_numbers};

// Bytes in brackets.
pub(crate) fn say_bytes(all: &[u8]) {
    io::write_all(1, b" [");
    io::write_all(1, all);
    io::write_all(1, b"]");
}

// A part's place, and its characters where they lie in the run.
fn say_part(run: &[u8], part: Part) {
    let first = part.first;
    let length = part.length;
    let place = [first as u64, length as u64];
    say_numbers(b" ", &place);
    if run.len() < first {
        return;
    }
    if run.len() - first < length {
        return;
    }
    let past = first + length;
    say_bytes(&run[first..past]);
}

fn say_number(run: &[u8], number: NumberPart) {
    let part = number.part;
    let value = number.value;
    say_part(run, part);
    say_reading(value);
}

fn say_head(run: &[u8], h: Head) {
    let said = [h.number as u64, h.at as u64];
    let flag = h.flag;
    let z = h.z;
    let symbol = h.symbol;
    let a = h.a;
    let isomer = h.isomer;
    let half = h.half;
    let unit = h.unit;
    let groups = h.groups;
    say_numbers(b"\nhead ", &said);
    say_part(run, flag);
    say_part(run, z);
    say_part(run, symbol);
    say_part(run, a);
    say_part(run, isomer);
    say_number(run, half);
    say_part(run, unit);
    say(b" ", groups as u64);
}

// Types from 0 to one past the last.
fn say_types(run: &[u8], k: u32, n: usize) {
    io::write_all(1, b" types");
    let mut i: u32 = 0;
    while i < 1000 {
        say_part(run, kind(run, k, i));
        if n < i as usize {
            return;
        }
        i += 1;
    }
}

// Energies from 0 to one past the last.
fn say_energies(run: &[u8], k: u32, n: usize) {
    io::write_all(1, b" energies");
    let mut i: u32 = 0;
    while i < 1000 {
        say_number(run, energy(run, k, i));
        if n < i as usize {
            return;
        }
        i += 1;
    }
}

fn say_group(run: &[u8], k: u32) {
    let g = group(run, k);
    let types = g.types;
    let energies = g.energies;
    let abundance = g.abundance;
    let counts = [k as u64, types as u64, energies as u64];
    say_numbers(b"\ngroup ", &counts);
    say_number(run, abundance);
    say_types(run, k, types);
    say_energies(run, k, energies);
}

// Groups from 0 to one past the last.
fn say_groups(run: &[u8], n: usize) {
    let mut k: u32 = 0;
    while k < 1000 {
        say_group(run, k);
        if n < k as usize {
            return;
        }
        k += 1;
    }
}

pub(crate) fn say_fields(run: &[u8]) {
    let h = head(run);
    let groups = h.groups;
    say_head(run, h);
    say_groups(run, groups);
}
