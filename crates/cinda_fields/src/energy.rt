// Refusal 76, energy. The rule gives the leftmost column at fault, 0 where there is none.
ghost use Rattle.std.specs.Prelude.{◌≡◌, true, ◌+◌, ◌≤◌, length};
ghost use Rattle.paper_record.specs.Columns.{columns_at};
ghost use Rattle.paper_record.specs.Numbers.{form_at, no_value};
ghost use Rattle.paper_faults.specs.Fault.{leftmost};
ghost use Rattle.paper_cinda.specs.Layout.{WholeLine};
ghost use Rattle.paper_cinda.specs.Rules.{rule76};

use number::form::NumberTables;
use paper_number::types::Form;

fn is_malformed(form: Form) -> bool
    ensures { result ≡ no_value true form }
{
    match form {
        Form::Blank => false,
        Form::Number => false,
        Form::Malformed => true,
    }
}

// Whether seven columns behind the first `at` are neither a number nor blank.
fn is_bad_energy(numbers: &NumberTables, line: &[u8], at: usize) -> bool
    requires { at + 7 ≤ length line.now }
    ensures { result ≡ no_value true (form_at (columns_at at 7 line.now)) }
{
    let past = at + 7;
    let form = numbers.form_of_columns(&line[at..past]);
    is_malformed(form)
}

// Energy.
pub fn rule76(numbers: &NumberTables, line: &[u8]) -> u8
    requires { WholeLine line.now }
    ensures { result ≡ leftmost (rule76 line.now) }
{
    if is_bad_energy(numbers, line, 41) {
        return 42;
    }
    if is_bad_energy(numbers, line, 48) {
        return 49;
    }
    0
}
