// The rule for the fields of system records: refusal 7. It gives the leftmost column at fault, 0 where there is none.
ghost use Rattle.std.specs.Prelude.{◌≡◌, ◌-◌};
ghost use Rattle.paper_rules.specs.Roles.{is_system};
ghost use Rattle.paper_faults.specs.Fault.{leftmost, on};
ghost use Rattle.paper_rules.specs.System.{form_n1, form_n2, in_form, rule7};

use record::system::{count_of, is_count, is_date, is_entry_n1, is_subent_n1};
use record_names::identifier::{ENTRY, Names};
use rules_roles::roles::{is_system, opens_section, opens_subentry};

// The forms of N1 and N2.
const FREE: usize = 0;

const ENTRY_N1: usize = 1;

const SUBENT_N1: usize = 2;

const DATE: usize = 3;

const COUNT: usize = 4;

fn form_n1(names: &Names, role: usize) -> usize
    ensures { result ≡ form_n1 role }
{
    if role == ENTRY {
        return ENTRY_N1;
    }
    if opens_subentry(role) {
        return SUBENT_N1;
    }
    if opens_section(role) {
        return COUNT;
    }
    if names.is_end(role) {
        return COUNT;
    }
    FREE
}

fn form_n2(role: usize) -> usize
    ensures { result ≡ form_n2 role }
{
    if role == ENTRY {
        return DATE;
    }
    if opens_subentry(role) {
        return DATE;
    }
    if opens_section(role) {
        return COUNT;
    }
    FREE
}

fn in_form(form: usize, f: [u8; 11]) -> bool
    ensures { result ≡ in_form form f }
{
    if form == ENTRY_N1 {
        return is_entry_n1(f);
    }
    if form == SUBENT_N1 {
        return is_subent_n1(f);
    }
    if form == DATE {
        return is_date(f);
    }
    if form == COUNT {
        return is_count(count_of(f));
    }
    true
}

pub fn rule7(names: &Names, role: usize, fs: [[u8; 11]; 6]) -> u8
    ensures { result ≡ leftmost (on (is_system role) (rule7 role fs)) }
{
    if !is_system(role) {
        return 0;
    }
    let f = fs[1];
    let g = fs[2];
    if !in_form(form_n1(names, role), f) {
        return 12;
    }
    if !in_form(form_n2(role), g) {
        return 23;
    }
    0
}
