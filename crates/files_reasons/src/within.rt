// The reason inside an entry of a file: that of its own records.
ghost use Rattle.std.specs.Prelude.{◌≡◌, ◌+◌, ◌/◌, ◌≤◌};
ghost use Rattle.paper_files.specs.File.{MOST-IN-FILE};
ghost use Rattle.paper_reasons.specs.File.{reason_within};

use files_passing::raising::{between, raised};
use paper_reasons::types::Reason;
use reasons::explain::explain;

pub(crate) fn reason_within(file: &[u8], first: usize, past: usize) -> Reason
    requires { first / 81 ≤ MOST-IN-FILE + 1 }
    ensures { result ≡ reason_within file.now first past }
{
    let own = between(file, first, past);
    let e = explain(own);
    let reason = e.reason;
    let said = reason.facts;
    let before = (first / 81) as u32;
    let facts = raised(before, said);
    let characters = reason.characters;
    Reason { facts, characters }
}
