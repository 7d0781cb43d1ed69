// The facts of each refusal that has a reason.
ghost use Rattle.std.specs.Prelude.{◌≡◌, ◌<◌};
ghost use Rattle.paper_record.specs.Columns.{Whole};
ghost use Rattle.paper_rules.specs.Ranging.{seen_of};
ghost use Rattle.paper_reasons.specs.Reason.{count_facts, equal_facts};
ghost use Rattle.reasons_facts.specs.Lying.{Lying};

use paper_reasons::types::Facts;
use paper_rules::types::{Ranges, Track};
use reasons_counts::counts::{announced_facts, end_facts};
use reasons_places::places::heading_place;
use record::system::{count_of, number_of};
use rules_earlier::earlier::equal_heading;
use rules_roles::ranging::part;
use rules_roles::roles::opens_section;

pub fn count_facts(track: Track, role: usize, fs: [[u8; 11]; 6], column: u8) -> Facts
    ensures { result ≡ count_facts track role fs column }
{
    let a = number_of(count_of(fs[1]));
    if opens_section(role) {
        let b = number_of(count_of(fs[2]));
        announced_facts(role, a, b, column)
    } else {
        end_facts(track, role, a)
    }
}

// 13: record and column of the first equal heading.
pub fn equal_facts<'a>(
    g: Ranges,
    before: &'a [u8],
    fs: [[u8; 11]; 6],
    rec: &'a [u8],
    k: usize,
) -> Facts
    requires lying { Lying g before.now }
    requires whole { Whole rec.now }
    requires k_bound { k < 6 }
    ensures { result ≡ equal_facts (seen_of before.now g) g fs rec.now k }
{
    let found = equal_heading(
        part(before, g.common001),
        part(before, g.common),
        part(before, g.table),
        rec,
        k,
        fs[k],
    );
    heading_place(g, found)
}
