// The rule for subentry numbers: refusal 9. It gives the leftmost column at fault, 0 for none, as `leftmost` does.
ghost use Rattle.std.specs.Prelude.{◌≡◌, ◌-◌, ◌<◌};
ghost use Rattle.paper_rules.specs.Roles.{opens_subentry};
ghost use Rattle.paper_faults.specs.Fault.{leftmost, on};
ghost use Rattle.paper_rules.specs.System.{number_due, rule9};

use paper_rules::types::Track;
use record::system::subentry_of;
use record_expected::expected::{same_five, subent_accession};
use rules_roles::roles::opens_subentry;

pub const LAST_SUBENTRY: u32 = 998;

// Whether a subentry with the number may follow.
fn number_due(track: Track, number: u32) -> bool
    ensures { result ≡ number_due track number }
{
    if track.totals.subentries == 0 {
        number == 1
    } else {
        track.subentry.number < number && number <= LAST_SUBENTRY
    }
}

#[tactic(auto, unfolding(paper_rules::specs::System::rule9))]
pub fn rule9(track: Track, role: usize, fs: [[u8; 11]; 6]) -> u8
    ensures { result ≡ leftmost (on (opens_subentry role) (rule9 track fs)) }
{
    if !opens_subentry(role) {
        return 0;
    }
    // Both the accession and the number stand in N1.
    let f = fs[1];
    if same_five(subent_accession(f), track.accession) && number_due(track, subentry_of(f)) {
        0
    } else {
        12
    }
}
