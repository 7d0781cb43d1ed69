// The judge: all records, one after the other, and the verdict.
ghost use Rattle.std.specs.Prelude.{◌≡◌, ◌-◌, ◌<◌};
ghost use Rattle.paper_entry.specs.Verdict.{refused, refused_within, is_done, length_good};

use paper_entry::types::Verdict;
use paper_record::types::RecordNo;
use paper_rules::types::{Phase, Totals};

// A refusal inside the entry that has the ordinal, 0 for none.
pub fn refused_within(ordinal: u32, refusal: u8, at: RecordNo, column: u8) -> Verdict
    ensures { result ≡ refused_within ordinal refusal at column }
{
    Verdict {
        refusal,
        record: at,
        column,
        totals: Totals {
            subentries: 0,
            keywords: 0,
            lines: 0,
            numbers: 0,
        },
        ordinal,
    }
}

pub fn refused(refusal: u8, at: RecordNo, column: u8) -> Verdict
    ensures { result ≡ refused refusal at column }
{
    refused_within(0, refusal, at, column)
}

const MOST_BYTES: usize = 1620000;

// Whether the length is that of 1 to 20,000 records.
#[tactic(auto, unfolding(paper_entry::specs::Verdict::length_good))]
pub fn length_good(n: usize) -> bool
    ensures { result ≡ length_good n }
{
    n != 0 && n % 81 == 0 && n <= MOST_BYTES
}

pub fn is_done(phase: Phase) -> bool
    ensures { result ≡ is_done phase }
{
    match phase {
        Phase::Start => false,
        Phase::Opened => false,
        Phase::InSubentry => false,
        Phase::InBib => false,
        Phase::AfterBib => false,
        Phase::InCommon => false,
        Phase::AfterCommon => false,
        Phase::InData => false,
        Phase::AfterData => false,
        Phase::Between => false,
        Phase::Done => true,
    }
}
