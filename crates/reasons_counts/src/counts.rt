// The facts of 8 on a record that opens a section and on an END record.
ghost use Rattle.std.specs.Prelude.{◌≡◌};
ghost use Rattle.paper_reasons.specs.Reason.{limits_of, announced_facts, end_facts};

use paper_reasons::types::Facts;
use paper_rules::types::{Limit, Track};
use record_names::identifier::COMMON;
use rules_counts::counts::true_count;
use rules_limits::limits::{limit_n1, limit_n2};

fn limits_of(limit: Limit) -> Facts
    ensures { result ≡ limits_of limit }
{
    match limit {
        Limit::AtLeast(least) => Facts::Range(least, 0),
        Limit::Between(least, greatest) => Facts::Range(least, greatest),
    }
}

// 8 on a record that opens a section.
pub fn announced_facts(role: usize, a: u64, b: u64, column: u8) -> Facts
    ensures { result ≡ announced_facts role a b column }
{
    if column == 12 {
        limits_of(limit_n1(role))
    } else if role == COMMON {
        // The count may be any of 64 bits: six columns to a record, rounded up without a sum that passes them.
        let k = a / 6 + (a % 6 + 5) / 6;
        Facts::Count(b, 3 * k)
    } else {
        limits_of(limit_n2(role, a))
    }
}

// 8 on an END record.
#[tactic(auto, unfolding(paper_reasons::specs::Reason::end_facts))]
pub fn end_facts(track: Track, role: usize, n: u64) -> Facts
    ensures { result ≡ end_facts track role n }
{
    let due = true_count(track, role);
    if n != due {
        Facts::Count(n, due)
    } else {
        Facts::Count(track.bib.keywords, u64::from(track.bib.met))
    }
}
