// The sixteen system identifiers.
ghost use Rattle.std.specs.Prelude.{◌≡◌, ℕ, ◌<◌};
ghost use Rattle.paper_record.specs.Identifier.{OTHER, name_table, is_name, identifier_of, is_end};

pub const ENTRY: usize = 0;

pub const SUBENT: usize = 1;

pub const NOSUBENT: usize = 2;

pub const BIB: usize = 3;

pub const NOBIB: usize = 4;

pub const ENDBIB: usize = 5;

pub const COMMON: usize = 6;

pub const NOCOMMON: usize = 7;

pub const ENDCOMMON: usize = 8;

pub const DATA: usize = 9;

pub const NODATA: usize = 10;

pub const ENDDATA: usize = 11;

pub const ENDSUBENT: usize = 12;

pub const ENDENTRY: usize = 13;

pub const TRANS: usize = 14;

pub const ENDTRANS: usize = 15;

pub const OTHER: usize = 16;

// Eleven columns for each name.
static NAMES: [u8; 11 * OTHER] = *b"\
    ENTRY      \
    SUBENT     \
    NOSUBENT   \
    BIB        \
    NOBIB      \
    ENDBIB     \
    COMMON     \
    NOCOMMON   \
    ENDCOMMON  \
    DATA       \
    NODATA     \
    ENDDATA    \
    ENDSUBENT  \
    ENDENTRY   \
    TRANS      \
    ENDTRANS   ";

// The names, which lie in one place for all.
#[derive(Clone, Copy)]
pub struct Names {
    columns: &'static [u8; 11 * OTHER],
    ghost same: { columns.now ≡ name_table },
}

impl Names {
    pub fn new() -> Self
        ensures { result.columns.now ≡ name_table }
    {
        Names { columns: &NAMES }
    }

    // Whether a field is the name at `k`.
    fn is_name(&self, f: [u8; 11], k: usize) -> bool
        requires { k < OTHER }
        ensures { result ≡ is_name f k }
    {
        for (i, &b) in f.iter().enumerate() {
            if b != self.columns[11 * k + i] {
                return false;
            }
        }
        true
    }

    // The system identifier that a field is, or OTHER.
    pub fn identifier_of(&self, f: [u8; 11]) -> usize
        ensures { result ≡ identifier_of f }
    {
        for k in 0..OTHER {
            if self.is_name(f, k) {
                return k;
            }
        }
        OTHER
    }

    // Whether the name at `k` begins with END.
    pub fn is_end(&self, k: usize) -> bool
        ensures { result ≡ is_end k }
    {
        if OTHER <= k {
            return false;
        }
        let at = 11 * k;
        self.columns[at] == b'E' && self.columns[at + 1] == b'N' && self.columns[at + 2] == b'D'
    }
}
