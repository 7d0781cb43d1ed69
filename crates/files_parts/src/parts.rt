// The entries of a file: how long each is, and the part of the file that it is.
ghost use Rattle.std.specs.Prelude.{◌≡◌, ◌+◌, ◌*◌, ◌≤◌, ◌<◌, length};
ghost use Rattle.laws.specs.Part.{Behind};
ghost use Rattle.paper_files.specs.Parts.{few, named_at, end_of, records_of, entry_records, entry_length, entry_first};
ghost use Rattle.paper_files.specs.Parts.{entry_from};

use columns::fields::field;
use record_names::identifier::{ENDENTRY, ENTRY, Names};

const MOST: usize = 20000;

fn few(n: usize) -> usize
    ensures value { result ≡ few n }
    ensures upper_bound { (result ≤ n) × (result ≤ 20000) }
{
    if n <= MOST { n } else { MOST }
}

// Whether the record with the index i has the system identifier k.
fn named_at(names: &Names, k: usize, bytes: &[u8], i: usize) -> bool
    requires { i < records_of bytes.now }
    ensures { result ≡ named_at k bytes.now i }
{
    let f = field(bytes, i * 81);
    let name = names.identifier_of(f);
    name == k
}

// The index of the first ENDENTRY among n records, or n.
fn end_of(names: &Names, bytes: &[u8], n: usize) -> usize
    requires { n ≡ records_of bytes.now }
    ensures { result ≡ end_of bytes.now }
{
    for i in 0..n {
        if named_at(names, ENDENTRY, bytes, i) {
            return i;
        }
    }
    n
}

// How many records the entry has that begins with these bytes, 0 where none does.
pub fn entry_records(bytes: &[u8]) -> usize
    ensures value { result ≡ entry_records bytes.now }
    ensures result_in_bounds { result * 81 ≤ length bytes.now }
{
    let n = few(bytes.len() / 81);
    if n == 0 {
        return 0;
    }
    let names = Names::new();
    if !named_at(&names, ENTRY, bytes, 0) {
        return 0;
    }
    let last = end_of(&names, bytes, n);
    if last < n {
        return last + 1;
    }
    0
}

// How many bytes the entry has that begins with the byte `at` of a file, 0 where none does.
pub fn entry_length(file: &[u8], at: usize) -> usize
    ensures value { result ≡ entry_length file.now at }
    ensures at_in_bounds { result + entry_first file.now at ≤ length file.now }
{
    if file.len() < at {
        return 0;
    }
    let n = entry_records(&file[at..]);
    n * 81
}

// That entry as a part of the file, empty where none begins there.
pub fn entry_from<'a>(file: &'a [u8], at: usize) -> &'a [u8]
    ensures behind { Behind file.entry.ref_ptr result.ref_ptr (entry_first file.now at) }
    ensures result_value { result.now ≡ entry_from file.now at }
{
    let n = entry_length(file, at);
    if n == 0 {
        return &file[0..0];
    }
    let past = at + n;
    &file[at..past]
}
