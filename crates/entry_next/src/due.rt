// What is due after a record, by its role.
ghost use Rattle.std.specs.Prelude.{◌≡◌};
ghost use Rattle.paper_entry.specs.Due.{phase_after};

use paper_rules::types::Phase;
use record_names::identifier::{
    BIB, COMMON, DATA, ENDBIB, ENDCOMMON, ENDDATA, ENDSUBENT, ENTRY, NOBIB, NOCOMMON, NODATA,
    NOSUBENT, SUBENT,
};
use rules_roles::roles::{
    COMMON_HEADING, COMMON_UNIT, COMMON_VALUE, DATA_HEADING, DATA_UNIT, DATA_VALUE, TEXT,
};

// What is due after a record with the role.
#[tactic(auto, unfolding(paper_entry::specs::Due::phase_after))]
pub fn phase_after(role: usize) -> Phase
    ensures { result ≡ phase_after role }
{
    match role {
        ENTRY => Phase::Opened,
        SUBENT => Phase::InSubentry,
        BIB | TEXT => Phase::InBib,
        NOBIB | ENDBIB => Phase::AfterBib,
        COMMON | COMMON_HEADING | COMMON_UNIT | COMMON_VALUE => Phase::InCommon,
        NOCOMMON | ENDCOMMON => Phase::AfterCommon,
        DATA | DATA_HEADING | DATA_UNIT | DATA_VALUE => Phase::InData,
        NODATA | ENDDATA => Phase::AfterData,
        NOSUBENT | ENDSUBENT => Phase::Between,
        _ => Phase::Done,
    }
}
