// The six fields of a value record, by what each reads to.
ghost use Rattle.std.specs.Prelude.{◌≡◌, cond, not, ◌&&◌, ◌≤◌, ltb};
ghost use Rattle.paper_record.specs.Numbers.{says_blank, no_value, says_number, values_of};

use number::form::NumberTables;
use paper_number::types::Form;
use paper_record::types::Values;

// Whether a form is blank.
fn is_blank_form(form: Form) -> bool
    ensures { result ≡ says_blank form }
{
    matches!(form, Form::Blank)
}

// Whether a form is a number.
fn is_number_form(form: Form) -> bool
    ensures { result ≡ says_number form }
{
    matches!(form, Form::Number)
}

// Whether a form is no value; an optional value may be blank.
fn is_no_value(optional: bool, form: Form) -> bool
    ensures { result ≡ no_value optional form }
{
    match form {
        Form::Blank => !optional,
        Form::Number => false,
        Form::Malformed => true,
    }
}

// Whether the field `k` of this form is used and no value, or unused and filled.
fn is_value_fault(optional: bool, used: usize, k: usize, form: Form) -> bool
    ensures { result ≡ cond (ltb k used) (no_value optional form) (not (says_blank form)) }
{
    if k < used {
        is_no_value(optional, form)
    } else {
        !is_blank_form(form)
    }
}

// One for a field `k` of this form that is used and a number.
fn number_at(used: usize, k: usize, form: Form) -> u32
    ensures value { result ≡ cond (ltb k used && says_number form) 1 0 }
    ensures upper_bound { result ≤ 1 }
{
    if used <= k {
        return 0;
    }
    if is_number_form(form) { 1 } else { 0 }
}

// The values of a record of which `used` fields are used, in one pass.
pub fn values_of(
    numbers: &NumberTables,
    fields: [[u8; 11]; 6],
    used: usize,
    optional: bool,
) -> Values
    ensures { result ≡ values_of optional used fields }
{
    let mut count: u32 = 0;
    for (k, &f) in fields.iter().enumerate() {
        let form = numbers.form_of_field(f);
        if is_value_fault(optional, used, k, form) {
            return Values {
                fault: k,
                numbers: count,
            };
        }
        count += number_at(used, k, form);
    }
    Values {
        fault: 6,
        numbers: count,
    }
}
