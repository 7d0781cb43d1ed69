// The place of a heading that is found.
ghost use Rattle.std.specs.Prelude.{◌≡◌};
ghost use Rattle.paper_reasons.specs.Reason.{heading_records, heading_place};
ghost use Rattle.reasons_places.specs.Inside.{Inside};

use columns_places::places::record_of;
use paper_reasons::types::Facts;
use paper_record::types::Index;
use paper_rules::types::{HeadingPlace, Range, Ranges};

// The heading records of a section.
fn heading_records(g: Ranges, section: usize) -> Range
    ensures { result ≡ heading_records g section }
{
    match section {
        1 => g.common001,
        2 => g.common,
        _ => g.table,
    }
}

pub fn heading_place(g: Ranges, found: Option<HeadingPlace>) -> Facts
    requires { Inside g found }
    ensures { result ≡ heading_place g found }
{
    match found {
        Some(place) => {
            let m = place.column - 1;
            let records = heading_records(g, place.section);
            let further = (m / 6) as u32;
            let i = records.from.0 + further;
            let at = record_of(Index(i));
            Facts::Equal(at, (m % 6 * 11 + 1) as u8)
        }
        None => Facts::Alone,
    }
}
