// Whether characters are a code, and whether it has a group.
ghost use Rattle.std.specs.Prelude.{◌≡◌, ◌≤◌, length};
ghost use Rattle.paper_decay_fields.specs.Asked.{read, is_code, goes_to, has_group};

use decay_parts::places::groups_in;
use decay_scan::scan::scan_text;
use number::form::NumberTables;
use paper_decay::types::{Scan, Stop};
use record_words::word::is_within;

// The reading from the beginning.
fn read_run(run: &[u8]) -> Stop
    ensures { (result ≡ read run.now) × (result.at ≤ length run.now) }
{
    let numbers = NumberTables::new();
    let start = Scan {
        place: 0,
        inner: 0,
        count: 0,
        again: false,
        filled: false,
    };
    scan_text(&numbers, start, run)
}

// Whether they close at the last of them.
pub fn is_code(run: &[u8]) -> bool
    ensures { result ≡ is_code run.now }
{
    let stop = read_run(run);
    let scan = stop.scan;
    let place = scan.place;
    let past = stop.at + 1;
    if place != 5 {
        return false;
    }
    past == run.len()
}

// How many stand before the first that no code has there.
pub fn goes_to(run: &[u8]) -> usize
    ensures { result ≡ goes_to run.now }
{
    let stop = read_run(run);
    let scan = stop.scan;
    let place = scan.place;
    let at = stop.at;
    if place == 5 {
        return at + 1;
    }
    at
}

// Whether there is a group k, counted from 1.
pub fn has_group(run: &[u8], k: u32) -> bool
    ensures { result ≡ has_group run.now k }
{
    if !is_code(run) {
        return false;
    }
    let groups = groups_in(run);
    is_within(1, groups as u64, k as u64)
}
