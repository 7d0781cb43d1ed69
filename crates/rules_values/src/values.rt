// The rule for value records: refusal 15.
ghost use Rattle.std.specs.Prelude.{◌≡◌, ◌-◌, ◌<◌};
ghost use Rattle.paper_faults.specs.Fault.{leftmost, on};
ghost use Rattle.paper_rules.specs.Roles.{is_value};
ghost use Rattle.paper_rules.specs.Values.{blank_fields, line_blank, values_for, rule15};

use number::form::NumberTables;
use paper_record::types::Values;
use paper_rules::types::Track;
use record_values::numbers::values_of;
use rules_roles::fault::field_column;
use rules_roles::roles::{DATA_VALUE, is_value};
use rules_state::state::{row_ends, used};

// Whether every used field is blank.
fn blank_fields(numbers: &NumberTables, fs: [[u8; 11]; 6], used: usize) -> bool
    ensures { result ≡ blank_fields used fs }
{
    let filled = values_of(numbers, fs, 0, true);
    used <= filled.fault
}

// What the fields of a value record read to; of another record nothing is read.
pub fn values(track: Track, numbers: &NumberTables, role: usize, fs: [[u8; 11]; 6]) -> Values
    ensures { result ≡ values_for track role fs }
{
    if !is_value(role) {
        return Values {
            fault: 6,
            numbers: 0,
        };
    }
    let optional = role == DATA_VALUE;
    values_of(numbers, fs, used(track), optional)
}

fn line_blank(track: Track, numbers: &NumberTables, role: usize, fs: [[u8; 11]; 6]) -> bool
    ensures { result ≡ line_blank track role fs }
{
    if role != DATA_VALUE {
        return false;
    }
    if !row_ends(track) {
        return false;
    }
    let t = track.table;
    if !t.blank {
        return false;
    }
    blank_fields(numbers, fs, used(track))
}

pub fn rule15(
    track: Track,
    numbers: &NumberTables,
    role: usize,
    fs: [[u8; 11]; 6],
    values: Values,
) -> u8
    requires { values ≡ values_for track role fs }
    ensures { result ≡ leftmost (on (is_value role) (rule15 track role fs)) }
{
    if !is_value(role) {
        return 0;
    }
    if line_blank(track, numbers, role, fs) {
        return 1;
    }
    field_column(values.fault, 6)
}
