// The records that a rule may look back at, by their numbers.
ghost use Rattle.std.specs.Prelude.{◌≡◌, ◌<◌};
ghost use Rattle.paper_rules.specs.Parts.{bytes_of, Lent};

use columns_places::places::offset_of;
use paper_record::types::Index;
use paper_rules::types::Range;

// The bytes of the records of a range.
pub fn part<'a>(before: &'a [u8], range: Range) -> &'a [u8]
    requires { Lent before.now range }
    ensures { result.now ≡ bytes_of before.now range }
{
    &before[offset_of(range.from)..offset_of(range.past)]
}
