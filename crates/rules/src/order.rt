// The fault of a record: the first by the order of the table.
ghost use Rattle.std.specs.Prelude.{◌≡◌, ℕ, ◌+◌, ◌-◌, ◌*◌, ◌≤◌, ◌<◌, cond, eqb, length, get_or, drop};
ghost use Rattle.paper_record.specs.Columns.{Whole};
ghost use Rattle.paper_rules.specs.Ranging.{Stands, seen_of};
ghost use Rattle.paper_rules.specs.Parts.{bytes_of};
ghost use Rattle.paper_rules.specs.Roles.{TEXT, is_heading};
ghost use Rattle.paper_faults.specs.Fault.{leftmost, on, fault_answer, first_fault};
ghost use Rattle.paper_rules.specs.Text.{rule11_text};
ghost use Rattle.paper_rules.specs.Headings.{rule11_heading};
ghost use Rattle.paper_rules.specs.Order.{findings, fault_of, Judged};

use faults::found::found;
use judge_tables::tables::Tables;
use paper_faults::types::Fault;
use paper_record::types::Values;
use paper_rules::types::{Ranges, Track};
use rules_counts::counts::rule8;
use rules_every::every::{rule2, rule3, rule4, rule5, rule6};
use rules_flags::flags::rule17;
use rules_numbers::numbers::rule9;
use rules_pointers::pointers::rule14;
use rules_roles::roles::TEXT;
use rules_section::headings::{rule11_heading, rule12, rule13};
use rules_system::system::rule7;
use rules_text::text::{rule10, rule11_text};
use rules_values::values::rule15;

// Rule 11 is made on text records and on heading records.
fn rule11(track: Track, ranges: Ranges, before: &[u8], role: usize, fs: [[u8; 11]; 6]) -> u8
    requires { Stands track ranges before.now }
    ensures { result
        ≡ leftmost (cond (eqb role TEXT) (rule11_text (bytes_of before.now ranges.under) fs)
        (on (is_heading role) (rule11_heading track fs))) }
{
    if role == TEXT {
        return rule11_text(track, ranges, before, fs);
    }
    rule11_heading(track, role, fs)
}

// The rules for value records, 15 and 17.
#[tactic(auto, unfolding(paper_faults::specs::Fault::first_fault))]
fn value_fault<'a>(
    track: Track,
    tables: &Tables,
    ranges: Ranges,
    before: &'a [u8],
    rec: &'a [u8],
    role: usize,
    fs: [[u8; 11]; 6],
    values: Values,
) -> Result<(), Fault>
    requires { Judged track ranges before.now rec.now role fs values }
    ensures { result
        ≡ first_fault (drop 13 (findings track (seen_of before.now ranges) role fs rec.now)) }
{
    found(15, rule15(track, &tables.numbers, role, fs, values))?;
    found(17, rule17(track, ranges, before, role, fs))
}

// From rule 10 on.
#[tactic(auto, unfolding(paper_faults::specs::Fault::first_fault))]
fn section_fault<'a>(
    track: Track,
    tables: &Tables,
    ranges: Ranges,
    before: &'a [u8],
    rec: &'a [u8],
    role: usize,
    fs: [[u8; 11]; 6],
    values: Values,
) -> Result<(), Fault>
    requires { Judged track ranges before.now rec.now role fs values }
    ensures { result
        ≡ first_fault (drop 8 (findings track (seen_of before.now ranges) role fs rec.now)) }
{
    found(10, rule10(track, ranges, before, role, fs))?;
    found(11, rule11(track, ranges, before, role, fs))?;
    found(12, rule12(track, role, fs))?;
    found(13, rule13(track, ranges, before, role, fs, rec))?;
    found(14, rule14(track, ranges, before, role, fs))?;
    value_fault(track, tables, ranges, before, rec, role, fs, values)
}

// From rule 4 on.
#[tactic(auto, unfolding(paper_faults::specs::Fault::first_fault))]
fn record_fault<'a>(
    track: Track,
    tables: &Tables,
    ranges: Ranges,
    before: &'a [u8],
    rec: &'a [u8],
    role: usize,
    fs: [[u8; 11]; 6],
    values: Values,
) -> Result<(), Fault>
    requires { Judged track ranges before.now rec.now role fs values }
    ensures { result
        ≡ first_fault (drop 2 (findings track (seen_of before.now ranges) role fs rec.now)) }
{
    found(4, rule4(role))?;
    found(5, rule5(track, role, fs, rec))?;
    found(6, rule6(track, role, rec))?;
    found(7, rule7(&tables.names, role, fs))?;
    found(8, rule8(track, &tables.names, role, fs))?;
    found(9, rule9(track, role, fs))?;
    section_fault(track, tables, ranges, before, rec, role, fs, values)
}

// The fault of a record with its role, its fields and what they read to.
#[tactic(auto, unfolding(paper_rules::specs::Order::fault_of, paper_faults::specs::Fault::first_fault))]
pub fn fault<'a>(
    track: Track,
    tables: &Tables,
    ranges: Ranges,
    before: &'a [u8],
    rec: &'a [u8],
    role: usize,
    fs: [[u8; 11]; 6],
    values: Values,
) -> Result<(), Fault>
    requires { Judged track ranges before.now rec.now role fs values }
    ensures value { result ≡ fault_of track (seen_of before.now ranges) role fs rec.now }
    ensures result_value { fault_answer result
        ≡ fault_answer (fault_of track (seen_of before.now ranges) role fs rec.now) }
{
    found(2, rule2(rec))?;
    found(3, rule3(&tables.classes, rec))?;
    record_fault(track, tables, ranges, before, rec, role, fs, values)
}
