// How long a file may be.
ghost use Rattle.std.specs.Prelude.{◌≡◌};
ghost use Rattle.paper_files.specs.File.{file_length_good};

const MOST_BYTES: usize = 16200000;

// Whether the length is that of 1 to 200,000 records.
pub fn file_length_good(n: usize) -> bool
    ensures { result ≡ file_length_good n }
{
    if n == 0 {
        return false;
    }
    if n % 81 != 0 {
        return false;
    }
    n <= MOST_BYTES
}
