// The two records of a file that belong to no entry. Each rule gives the leftmost column at fault, 0 where there is none.
ghost use Rattle.std.specs.Prelude.{◌≡◌};
ghost use Rattle.paper_record.specs.Columns.{Whole};
ghost use Rattle.paper_record.specs.Fields.{fields_of};
ghost use Rattle.paper_faults.specs.Fault.{leftmost};
ghost use Rattle.paper_files.specs.Outside.{rule7_outside, rule8_outside, outside_fault};

use classes::class::Classes;
use columns::fields::fields;
use faults::found::found;
use files_trans::trans::trans_form;
use paper_faults::types::Fault;
use record::system::{count_of, is_count, number_of};
use record_names::identifier::{ENDTRANS, TRANS};
use rules_every::every::{rule2, rule3, rule4};

fn rule7_outside(role: usize, fs: [[u8; 11]; 6]) -> u8
    ensures { result ≡ leftmost (rule7_outside role fs) }
{
    if role == TRANS {
        return trans_form(fs);
    }
    if role != ENDTRANS {
        return 0;
    }
    let f = fs[1];
    if !is_count(count_of(f)) {
        return 12;
    }
    0
}

fn rule8_outside(entries: u32, role: usize, fs: [[u8; 11]; 6]) -> u8
    ensures { result ≡ leftmost (rule8_outside entries role fs) }
{
    if role != ENDTRANS {
        return 0;
    }
    let announced = fs[1];
    let said = number_of(count_of(announced));
    if said != entries as u64 {
        return 12;
    }
    0
}

// The fault of a record that belongs to no entry, with so many entries before it.
#[tactic(auto, unfolding(paper_files::specs::Outside::outside_fault, paper_faults::specs::Fault::first_fault))]
pub fn outside_fault(entries: u32, classes: &Classes, role: usize, rec: &[u8]) -> Result<(), Fault>
    requires { Whole rec.now }
    ensures { result ≡ outside_fault entries role (fields_of rec.now) rec.now }
{
    found(2, rule2(rec))?;
    found(3, rule3(classes, rec))?;
    found(4, rule4(role))?;
    let fs = fields(rec);
    found(7, rule7_outside(role, fs))?;
    found(8, rule8_outside(entries, role, fs))
}
