// The rule for counts: refusal 8. It gives the leftmost column at fault, 0 where there is none.
ghost use Rattle.std.specs.Prelude.{◌≡◌, ◌-◌};
ghost use Rattle.paper_rules.specs.Roles.{is_system};
ghost use Rattle.paper_faults.specs.Fault.{leftmost, on};
ghost use Rattle.paper_rules.specs.Counts.{true_count};
ghost use Rattle.paper_rules.specs.Counts.{keywords_true, count_true, rule8};

use paper_rules::types::Track;
use record::system::{count_of, number_of};
use record_names::identifier::{ENDBIB, ENDENTRY, ENDSUBENT, Names};
use rules_limits::limits::announced;
use rules_roles::roles::{is_system, opens_section};

// The count that an END record must give.
pub fn true_count(track: Track, role: usize) -> u64
    ensures { result ≡ true_count track role }
{
    if role == ENDENTRY {
        let x = track.totals;
        return x.subentries as u64;
    }
    if role == ENDSUBENT {
        let s = track.subentry;
        return s.records as u64;
    }
    track.section as u64
}

// Whether ENDBIB finds as many keywords as BIB announces.
fn keywords_true(track: Track, role: usize) -> bool
    ensures { result ≡ keywords_true track role }
{
    if role != ENDBIB {
        return true;
    }
    let b = track.bib;
    b.met as u64 == b.keywords
}

// Of an END record.
fn count_true(track: Track, role: usize, n: u64) -> bool
    ensures { result ≡ count_true track role n }
{
    let due = true_count(track, role);
    if n != due {
        return false;
    }
    keywords_true(track, role)
}

pub fn rule8(track: Track, names: &Names, role: usize, fs: [[u8; 11]; 6]) -> u8
    ensures { result ≡ leftmost (on (is_system role) (rule8 track role fs)) }
{
    if !is_system(role) {
        return 0;
    }
    let f = fs[1];
    let g = fs[2];
    let a = number_of(count_of(f));
    if opens_section(role) {
        let b = number_of(count_of(g));
        return announced(role, a, b);
    }
    if !names.is_end(role) {
        return 0;
    }
    if count_true(track, role, a) {
        return 0;
    }
    12
}
