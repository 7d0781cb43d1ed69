// What is written of many bytes: their sum, how many of them are untouched, and some records.
ghost use Rattle.std.specs.Prelude.{◌≡◌, ◌≤◌, length};

use program_text::number_in;

fn mix(sum: u32, b: u8) -> u32 {
    ((sum as u64 * 65599 + b as u64) % 4294967291) as u32
}

pub(crate) fn sum_of(all: &[u8]) -> u32 {
    let mut sum: u32 = 0;
    let mut i: usize = 0;
    while i < all.len() {
        sum = mix(sum, all[i]);
        i += 1;
    }
    sum
}

fn is_tilde(b: u8) -> u64
    ensures { result ≤ 1 }
{
    if b == b'~' { 1 } else { 0 }
}

pub(crate) fn tildes(all: &[u8]) -> u64 {
    let mut n: u64 = 0;
    let mut i: usize = 0;
    while i < all.len() {
        n += is_tilde(all[i]);
        i += 1;
    }
    n
}

// A record that begins an entry or a subentry, or ends the entry.
fn say_record(record: &[u8]) {
    let sequence = number_in(record, 74, 79);
    let subentry = number_in(record, 71, 74);
    if sequence == 1 {
        io::write_all(1, record);
    }
    if subentry == 999 {
        io::write_all(1, record);
    }
}

pub(crate) fn say_records(all: &[u8]) {
    let mut at: usize = 0;
    while at < all.len() {
        if all.len() - at < 81 {
            return;
        }
        let past = at + 81;
        say_record(&all[at..past]);
        at = past;
    }
}

// The merge's buffer.
pub(crate) fn buffer() -> [u8; 16200]
    ensures { 16200 ≡ length result }
{
    [b'~'; 16200]
}
