// The version of this interface, for host programs.
ghost use Rattle.std.specs.Prelude.{◌≡◌};
ghost use Rattle.exports_words.specs.Words.{VERSION};

// A header says its own; the two are to be the same.
#[unsafe(no_mangle)]
pub extern "C" fn x4_version() -> u32
    ensures { result ≡ VERSION }
{
    4
}
