// The records of an entry in a file: their bytes, and how they are counted from the file's start.
ghost use Rattle.std.specs.Prelude.{◌≡◌};
ghost use Rattle.paper_reasons.specs.File.{between, raised};
ghost use Rattle.files_passing.specs.Raising.{Raisable};

use paper_reasons::types::Facts;
use paper_record::types::RecordNo;

// The bytes from `first` up to `past`, as far as there are any.
pub fn between<'a>(file: &'a [u8], first: usize, past: usize) -> &'a [u8]
    ensures { result.now ≡ between first past file.now }
{
    let n = file.len();
    if past < first {
        return &file[0..0];
    }
    if n < first {
        return &file[0..0];
    }
    if n < past {
        return &file[first..n];
    }
    &file[first..past]
}

// Records are counted from the file's start, where n stand before the entry.
pub fn raised(n: u32, facts: Facts) -> Facts
    requires { Raisable n facts }
    ensures { result ≡ raised n facts }
{
    match facts {
        Facts::Alone => Facts::Alone,
        Facts::Count(announced, counted) => Facts::Count(announced, counted),
        Facts::Range(least, greatest) => Facts::Range(least, greatest),
        Facts::Previous(number) => Facts::Previous(number),
        Facts::Equal(at, column) => {
            let own = at.0;
            let record = n + own;
            Facts::Equal(RecordNo(record), column)
        }
        Facts::Pointer(pointer) => Facts::Pointer(pointer),
        Facts::Expected => Facts::Expected,
    }
}
