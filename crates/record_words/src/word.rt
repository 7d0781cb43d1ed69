// Words, columns that are blank and columns that are equal.
ghost use Rattle.std.specs.Prelude.{◌≡◌, ℕ, ◌+◌, ◌*◌, ◌≤◌, length};
ghost use Rattle.paper_record.specs.Text.{within};
ghost use Rattle.paper_record.specs.Word.{blank_to, equal_to, word_end, filled_from, is_word};
ghost use Rattle.paper_record.specs.Word.{eight_at};

// The first filled one of the columns of a field from `from` up to `w`, or `w`.
pub fn filled_from(f: [u8; 11], from: usize, w: usize) -> usize
    requires from_le_w { from ≤ w }
    requires w_bound { w ≤ 11 }
    ensures value { result ≡ filled_from w f from }
    ensures upper_bound { result ≤ w }
{
    // A loop, since what `position` finds in a part of an array was not proved.
    for i in from..w {
        if f[i] != b' ' {
            return i;
        }
    }
    w
}

// Whether the first `w` columns of a field are blank.
pub fn blank_to(f: [u8; 11], w: usize) -> bool
    requires { w ≤ 11 }
    ensures { result ≡ blank_to w f }
{
    filled_from(f, 0, w) == w
}

// Whether the keyword place, columns 1 to 10, is blank.
pub fn is_keyword_blank(f: [u8; 11]) -> bool
    ensures { result ≡ blank_to 10 f }
{
    blank_to(f, 10)
}

// Whether the first `w` columns of two parts are equal.
pub fn equal_to(a: &[u8], b: &[u8], w: usize) -> bool
    requires w_in_bounds { w ≤ length a.now }
    requires w_in_bounds_2 { w ≤ length b.now }
    ensures { result ≡ equal_to w a.now b.now }
{
    a[..w] == b[..w]
}

// Whether two keyword places are equal.
pub fn same_keyword(a: [u8; 11], b: [u8; 11]) -> bool
    ensures { result ≡ equal_to 10 a b }
{
    equal_to(&a, &b, 10)
}

// Eight columns of a part as one number.
pub fn eight_columns(part: &[u8], at: usize) -> u64
    requires { at + 8 ≤ length part.now }
    ensures { result ≡ eight_at part.now at }
{
    u64::from_be_bytes([
        part[at],
        part[at + 1],
        part[at + 2],
        part[at + 3],
        part[at + 4],
        part[at + 5],
        part[at + 6],
        part[at + 7],
    ])
}

// Whether two headings are equal, each with its pointer.
pub fn same_heading(a: [u8; 11], b: [u8; 11]) -> bool
    ensures { result ≡ equal_to 11 a b }
{
    equal_to(&a, &b, 11)
}

// How many of ten columns stand before the first blank.
pub fn word_end(f: [u8; 11]) -> usize
    ensures value { result ≡ word_end 10 f }
    ensures upper_bound { result ≤ 10 }
{
    // A loop, as in `filled_from`.
    for (i, b) in f[..10].iter().enumerate() {
        if *b == b' ' {
            return i;
        }
    }
    10
}

// Whether columns 1 to 10 are a word.
pub fn is_word(f: [u8; 11]) -> bool
    ensures { result ≡ is_word 10 f }
{
    let end = word_end(f);
    end != 0 && filled_from(f, end, 10) == 10
}

// Whether `low <= n <= high`.
pub fn is_within(low: u64, high: u64, n: u64) -> bool
    ensures { result ≡ within low high n }
{
    low <= n && n <= high
}

// Whether a byte is one of the characters from `low` to `high`.
pub fn is_from(low: u8, high: u8, b: u8) -> bool
    ensures { result ≡ within low high b }
{
    is_within(u64::from(low), u64::from(high), u64::from(b))
}
