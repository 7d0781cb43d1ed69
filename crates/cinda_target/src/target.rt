// Refusal 74, the target: Z, A and the isomer. The rule gives the leftmost column at fault, 0 where there is none.
ghost use Rattle.std.specs.Prelude.{◌≡◌, ◌||◌};
ghost use Rattle.paper_record.specs.Text.{is_blank, is_digit};
ghost use Rattle.paper_faults.specs.Fault.{leftmost};
ghost use Rattle.paper_cinda.specs.Layout.{WholeLine};
ghost use Rattle.paper_cinda.specs.Rules.{good_z, good_mass, rule74};

use cinda_columns::integer::is_integer_at;
use cinda_columns::nucleus::{is_many, is_nines};
use record_words::word::is_from;

// An integer, and 999 where the target is many nuclei.
fn is_good_z(line: &[u8]) -> bool
    requires { WholeLine line.now }
    ensures { result ≡ good_z line.now }
{
    if is_many(line) {
        return is_nines(line);
    }
    is_integer_at(line, 1, 3)
}

fn is_good_mass(line: &[u8]) -> bool
    requires { WholeLine line.now }
    ensures { result ≡ good_mass line.now }
{
    if is_many(line) {
        return true;
    }
    is_integer_at(line, 4, 3)
}

fn is_blank_or_digit(b: u8) -> bool
    ensures { result ≡ is_blank b || is_digit b }
{
    if b == b' ' {
        return true;
    }
    is_from(b'0', b'9', b)
}

// Target: Z, A and the isomer.
pub fn rule74(line: &[u8]) -> u8
    requires { WholeLine line.now }
    ensures { result ≡ leftmost (rule74 line.now) }
{
    if !is_good_z(line) {
        return 2;
    }
    if !is_good_mass(line) {
        return 5;
    }
    if !is_blank_or_digit(line[7]) {
        return 8;
    }
    0
}
