// A walk is made as a question is asked: the entry is judged, the subentry's row found, and the rest read from the row.
ghost use Rattle.std.specs.Prelude.{◌≡◌};
ghost use Rattle.paper_walk.specs.Walk.{start_of};

use entry_verdict::answer::answer_for;
use paper_walk::types::Walk;
use questions_numbers::row::no_row;
use questions_rows::row::locate;
use walk::walk::start_from_row;
use walk_places::places::done_walk;

// The walk over the values of COMMON (section 1) or DATA (section 2) of a subentry; refused by 31, 32 or 33 it is done.
pub fn start(entry: &[u8], number: u32, section: u32) -> Walk
    ensures { result ≡ start_of entry.now number section }
{
    let found = locate(entry, number);
    let v = found.verdict;
    let row = found.row;
    let refusal = no_row(v, row);
    if refusal != 0 {
        let refused = answer_for(v, refusal);
        return done_walk(refused);
    }
    start_from_row(entry, row, section)
}
