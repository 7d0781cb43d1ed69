// Pointers, headings and units: which field is not what it is to be.
ghost use Rattle.std.specs.Prelude.{◌≡◌, ℕ, ◌<◌, ◌≤◌, true, false, [], get_or};
ghost use Rattle.paper_record.specs.Fields.{first_field};
ghost use Rattle.paper_record.specs.Word.{blank_to};
ghost use Rattle.paper_record.specs.Faults.{is_pointer, bad_pointer, is_unit_word};
ghost use Rattle.paper_record.specs.Faults.{pointer_fault, heading_fault, unit_fault};

use record_words::word::{blank_to, is_word};

// Whether a field is blank.
fn is_blank(f: [u8; 11]) -> bool
    ensures { result ≡ blank_to 11 f }
{
    blank_to(f, 11)
}

// Whether a byte is a pointer.
fn is_pointer(b: u8) -> bool
    ensures { result ≡ is_pointer b }
{
    matches!(b, b'1'..=b'9' | b'A'..=b'Z')
}

// Whether the eleventh column is neither a pointer nor blank.
pub fn bad_pointer(f: [u8; 11]) -> bool
    ensures { result ≡ bad_pointer f }
{
    f[10] != b' ' && !is_pointer(f[10])
}

// Whether a field is a unit: a word, its eleventh column blank.
pub fn is_unit(f: [u8; 11]) -> bool
    ensures { result ≡ is_unit_word f }
{
    is_word(f) && f[10] == b' '
}

// Whether the field `k`, if it is used, has a bad pointer.
fn is_pointer_fault(used: usize, k: usize, f: [u8; 11]) -> bool
    ensures { result ≡ pointer_fault used k f }
{
    k < used && bad_pointer(f)
}

// Whether the field `k` is used and no word, or unused and filled.
fn is_heading_fault(used: usize, k: usize, f: [u8; 11]) -> bool
    ensures { result ≡ heading_fault used k f }
{
    if k < used { !is_word(f) } else { !is_blank(f) }
}

// Whether the field `k` is used and no unit, or unused and filled.
fn is_unit_fault(used: usize, k: usize, f: [u8; 11]) -> bool
    ensures { result ≡ unit_fault used k f }
{
    if k < used { !is_unit(f) } else { !is_blank(f) }
}

// The first of the six fields that is at fault, or 6, which `first_field` of the definitions has for none.
fn first_fault<F: Fn(usize, [u8; 11]) -> bool>(fields: [[u8; 11]; 6], is_fault: F) -> usize
    requires { F.IsAlwaysCallable is_fault }
    ensures before { (k : ℕ) → k < result → F.post is_fault k (get_or fields k []) false }
    ensures found { result < 6 → F.post is_fault result (get_or fields result []) true }
    ensures upper_bound { result ≤ 6 }
{
    for (k, f) in fields.iter().enumerate() {
        if is_fault(k, *f) {
            return k;
        }
    }
    6
}

// The first used field with a bad pointer, or 6.
pub fn pointer_fault(fields: [[u8; 11]; 6], used: usize) -> usize
    ensures { result ≡ first_field (pointer_fault used) fields }
{
    first_fault(
        fields,
        |k, f|
            ensures { result ≡ pointer_fault used k f }
        { is_pointer_fault(used, k, f) },
    )
}

// The first field of a heading record that is no word, or unused and filled, or 6.
pub fn heading_fault(fields: [[u8; 11]; 6], used: usize) -> usize
    ensures { result ≡ first_field (heading_fault used) fields }
{
    first_fault(
        fields,
        |k, f|
            ensures { result ≡ heading_fault used k f }
        { is_heading_fault(used, k, f) },
    )
}

// The first field of a unit record that is no unit, or unused and filled, or 6.
pub fn unit_fault(fields: [[u8; 11]; 6], used: usize) -> usize
    ensures { result ≡ first_field (unit_fault used) fields }
{
    first_fault(
        fields,
        |k, f|
            ensures { result ≡ unit_fault used k f }
        { is_unit_fault(used, k, f) },
    )
}
