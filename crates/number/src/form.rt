// Whether a number field is blank, a number or malformed, with no arithmetic: by a table of the kinds of bytes and a
// table of the places to which they lead.
ghost use Rattle.std.specs.Prelude.{◌≡◌, ◌<◌};
ghost use Rattle.paper_number.specs.Reading.{Scan, column_of, scan_step, read_field, answer};
ghost use Rattle.paper_number.specs.Form.{form_of, form_refusal, kind_table, next_table, place_number, form_at_end};

use paper_number::types::Form;

// The kind of each byte, and where each kind leads from each place. The tables lie in one place for all, and what is lent
// stands for them.
#[derive(Clone, Copy)]
pub struct NumberTables {
    kinds: &'static [u8; 256],
    nexts: &'static [u8; 88],
    ghost kinds_right: { kinds.now ≡ kind_table },
    ghost nexts_right: { nexts.now ≡ next_table },
}

// The kind of each byte, sixteen to a row: 0 a blank, 1 a digit, 2 the point, 3 a sign, 4 the E, 5 any other.
static KINDS: [u8; 256] = [
    5, 5, 5, 5, 5, 5, 5, 5, 5, 5, 5, 5, 5, 5, 5, 5, // 0
    5, 5, 5, 5, 5, 5, 5, 5, 5, 5, 5, 5, 5, 5, 5, 5, // 16
    0, 5, 5, 5, 5, 5, 5, 5, 5, 5, 5, 3, 5, 3, 2, 5, // 32
    1, 1, 1, 1, 1, 1, 1, 1, 1, 1, 5, 5, 5, 5, 5, 5, // 48
    5, 5, 5, 5, 5, 4, 5, 5, 5, 5, 5, 5, 5, 5, 5, 5, // 64
    5, 5, 5, 5, 5, 5, 5, 5, 5, 5, 5, 5, 5, 5, 5, 5, // 80
    5, 5, 5, 5, 5, 5, 5, 5, 5, 5, 5, 5, 5, 5, 5, 5, // 96
    5, 5, 5, 5, 5, 5, 5, 5, 5, 5, 5, 5, 5, 5, 5, 5, // 112
    5, 5, 5, 5, 5, 5, 5, 5, 5, 5, 5, 5, 5, 5, 5, 5, // 128
    5, 5, 5, 5, 5, 5, 5, 5, 5, 5, 5, 5, 5, 5, 5, 5, // 144
    5, 5, 5, 5, 5, 5, 5, 5, 5, 5, 5, 5, 5, 5, 5, 5, // 160
    5, 5, 5, 5, 5, 5, 5, 5, 5, 5, 5, 5, 5, 5, 5, 5, // 176
    5, 5, 5, 5, 5, 5, 5, 5, 5, 5, 5, 5, 5, 5, 5, 5, // 192
    5, 5, 5, 5, 5, 5, 5, 5, 5, 5, 5, 5, 5, 5, 5, 5, // 208
    5, 5, 5, 5, 5, 5, 5, 5, 5, 5, 5, 5, 5, 5, 5, 5, // 224
    5, 5, 5, 5, 5, 5, 5, 5, 5, 5, 5, 5, 5, 5, 5, 5, // 240
];

// Where a kind leads, a row of eight entries for each place; 10 is the place from which no way leads.
static NEXTS: [u8; 88] = [
    0, 2, 3, 1, 10, 10, 10, 10, // 0, before all
    10, 2, 3, 10, 10, 10, 10, 10, // 1, behind the sign
    10, 2, 4, 10, 10, 10, 10, 10, // 2, in the digits before the point
    10, 4, 10, 10, 10, 10, 10, 10, // 3, at the point, with no digit
    5, 4, 10, 8, 6, 10, 10, 10, // 4, in the digits behind the point
    5, 10, 10, 8, 6, 10, 10, 10, // 5, in the blanks behind them
    7, 9, 10, 8, 10, 10, 10, 10, // 6, at the E
    7, 9, 10, 10, 10, 10, 10, 10, // 7, in the blanks behind the E
    10, 9, 10, 10, 10, 10, 10, 10, // 8, behind the exponent's sign
    10, 9, 10, 10, 10, 10, 10, 10, // 9, in the exponent's digits
    10, 10, 10, 10, 10, 10, 10, 10, // 10, no number
];

// The kinds, by themselves.
pub fn kinds() -> [u8; 256]
    ensures { result ≡ kind_table }
{
    *NumberTables::new().kinds
}

// The places, by themselves.
pub fn nexts() -> [u8; 88]
    ensures { result ≡ next_table }
{
    *NumberTables::new().nexts
}

fn form_at(place: u8) -> Form
    ensures { result ≡ form_at_end place }
{
    match place {
        0 => Form::Blank,
        4 | 5 | 9 => Form::Number,
        _ => Form::Malformed,
    }
}

impl NumberTables {
    pub fn new() -> Self
        ensures kinds_right { result.kinds.now ≡ kind_table }
        ensures nexts_right { result.nexts.now ≡ next_table }
    {
        NumberTables {
            kinds: &KINDS,
            nexts: &NEXTS,
        }
    }

    // The place behind a column, from the place before it.
    pub fn next_place(&self, place: u8, b: u8) -> u8
        requires { place < 11 }
        ensures { (t : Scan) → place ≡ place_number t → result ≡ place_number (scan_step t (column_of b)) }
    {
        let k = self.kinds[b as usize];
        let at = (place as usize) * 8 + (k as usize);
        self.nexts[at]
    }

    // What form the columns have, however many they are.
    pub fn form_of_columns(&self, s: &[u8]) -> Form
        ensures { result ≡ form_of (read_field s.now) }
    {
        let mut place: u8 = 0;
        for &b in s {
            place = self.next_place(place, b);
        }
        form_at(place)
    }

    // What form a field of eleven columns has.
    pub fn form_of_field(&self, field: [u8; 11]) -> Form
        ensures value { result ≡ form_of (read_field field) }
        ensures result_value { form_refusal result ≡ (answer (read_field field)).refusal }
    {
        self.form_of_columns(&field)
    }
}
