// The archive of `exports_doubles` for C: values as doubles. Each function has the name, the arguments and
// the promise of one there, and calls it.

#![tactic(auto)]

ghost use Rattle.std.specs.Prelude.{◌≡◌};
ghost use Rattle.paper_double_asking.specs.Ask.{double_asked, double_by_index};
ghost use Rattle.exports_simple.specs.Doubles.{double_word, double_stored};

// The value in a line and a column of COMMON (section 1) or DATA (section 2) of a subentry.
#[unsafe(no_mangle)]
pub extern "C" fn x4_double(
    entry: &[u8],
    subentry: u32,
    section: u32,
    line: u32,
    column: u32,
    value: &mut [f64; 1],
) -> u64
    ensures value { result ≡ double_word (double_asked entry.now subentry section (record { 0 = line }) column) }
    ensures value_after { value.new
        ≡ double_stored value.old
        (double_asked entry.now subentry section (record { 0 = line }) column).value }
{
    exports_doubles::doubles::x4_double(entry, subentry, section, line, column, value)
}

// The same by an index.
#[unsafe(no_mangle)]
pub extern "C" fn x4_index_double(
    entry: &[u8],
    index: &[u32],
    subentry: u32,
    section: u32,
    line: u32,
    column: u32,
    value: &mut [f64; 1],
) -> u64
    ensures value { result
        ≡ double_word
        (double_by_index entry.now index.now subentry section (record { 0 = line }) column) }
    ensures value_after { value.new
        ≡ double_stored value.old
        (double_by_index entry.now index.now subentry section (record { 0 = line }) column).value }
{
    exports_doubles::doubles::x4_index_double(entry, index, subentry, section, line, column, value)
}
