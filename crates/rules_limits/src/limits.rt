// The counts that a record announces, by the limits of each: part of refusal 8.
ghost use Rattle.std.specs.Prelude.{◌≡◌, ◌-◌, ◌*◌, ◌<◌};
ghost use Rattle.paper_faults.specs.Fault.{leftmost};
ghost use Rattle.paper_rules.specs.Counts.{limit_n1, limit_n2, Few, meets, announced_fault};

use columns_places::places::records_for;
use paper_rules::types::Limit;
use record_names::identifier::{BIB, COMMON};
use record_words::word::is_within;

// The limits of document 01.
pub const MOST_COLUMNS: u64 = 18;

pub const MOST_LINES: u64 = 20000;

#[tactic(auto, unfolding(paper_rules::specs::Counts::limit_n1))]
pub fn limit_n1(role: usize) -> Limit
    ensures { result ≡ limit_n1 role }
{
    if role == BIB {
        Limit::AtLeast(1)
    } else {
        Limit::Between(1, MOST_COLUMNS)
    }
}

#[tactic(auto, unfolding(paper_rules::specs::Counts::limit_n2))]
pub fn limit_n2(role: usize, n: u64) -> Limit
    requires { Few role n }
    ensures { result ≡ limit_n2 role n }
{
    match role {
        BIB => Limit::AtLeast(n),
        COMMON => {
            let records = 3 * u64::from(records_for(n as u32));
            Limit::Between(records, records)
        }
        _ => Limit::Between(1, MOST_LINES),
    }
}

fn meets(limit: Limit, n: u64) -> bool
    ensures { result ≡ meets limit n }
{
    match limit {
        Limit::AtLeast(least) => least <= n,
        Limit::Between(least, greatest) => is_within(least, greatest, n),
    }
}

// Of a record that opens a section; 0 where there is no fault: `leftmost` (paper_faults) gives that number.
pub fn announced(role: usize, a: u64, b: u64) -> u8
    ensures { result ≡ leftmost (announced_fault role a b) }
{
    if !meets(limit_n1(role), a) {
        12
    } else if !meets(limit_n2(role, a), b) {
        23
    } else {
        0
    }
}
