// The fault of a line: "lowest number, then leftmost column".
ghost use Rattle.std.specs.Prelude.{◌≡◌, drop};
ghost use Rattle.paper_faults.specs.Fault.{first_fault};
ghost use Rattle.paper_cinda.specs.Layout.{WholeLine};
ghost use Rattle.paper_cinda.specs.Rules.{findings, line_fault};

use crate::rules::{rule71, rule72, rule73};
use cinda_fields::block::rule75;
use cinda_fields::date::rule77;
use cinda_fields::energy::rule76;
use cinda_target::target::rule74;
use classes::class::Classes;
use faults::found::found;
use number::form::NumberTables;
use paper_faults::types::Fault;

// From rule 75 on.
#[tactic(auto, unfolding(paper_faults::specs::Fault::first_fault))]
fn later_fault(numbers: &NumberTables, line: &[u8]) -> Result<(), Fault>
    requires { WholeLine line.now }
    ensures { result ≡ first_fault (drop 4 (findings line.now)) }
{
    found(75, rule75(line))?;
    found(76, rule76(numbers, line))?;
    found(77, rule77(line))
}

// The fault of a line.
#[tactic(auto, unfolding(paper_cinda::specs::Rules::line_fault, paper_faults::specs::Fault::first_fault))]
pub fn line_fault(classes: &Classes, numbers: &NumberTables, line: &[u8]) -> Result<(), Fault>
    requires { WholeLine line.now }
    ensures { result ≡ line_fault line.now }
{
    found(71, rule71(line))?;
    found(72, rule72(classes, line))?;
    found(73, rule73(line))?;
    found(74, rule74(line))?;
    later_fault(numbers, line)
}
