// The text records inside an entry, and the refusals of a passage by numbers alone.
ghost use Rattle.std.specs.Prelude.{◌≡◌, ◌&&◌, [], ◌∷◌, ◌-◌, ◌≤◌, eqb, ltb};
ghost use Rattle.paper_rules.specs.Limits.{MOST-RECORDS};
ghost use Rattle.paper_entry.specs.Answer.{refusal, first_of};
ghost use Rattle.paper_index.specs.PassageAnswers.{least, records_held};

use paper_record::types::RecordNo;
use rules_state::state::MOST_RECORDS;

// How many records lie inside the entry.
fn records_held(entry: &[u8]) -> u32
    ensures value { result ≡ records_held entry.now }
    ensures upper_bound { result ≤ MOST-RECORDS }
{
    let whole = entry.len() / 81;
    if whole <= MOST_RECORDS as usize {
        return whole as u32;
    }
    MOST_RECORDS
}

// How many of the counted text records lie inside the entry.
pub fn texts_held(entry: &[u8], bib: RecordNo, counted: u64) -> u32
    ensures value { result ≡ least counted (records_held entry.now - bib.0) }
    ensures upper_bound { result ≤ MOST-RECORDS }
{
    let held = records_held(entry);
    if held <= bib.0 {
        return 0;
    }
    let behind = held - bib.0;
    if counted <= u64::from(behind) {
        return counted as u32;
    }
    behind
}

// 39 where reading came to the end of the entry, 36 where there is no such passage, else 0.
pub fn passage_refusal(counted: u64, held: u32, from: u32, past: u32) -> u8
    ensures { result ≡ first_of (refusal 39 (ltb held counted && eqb past held) ∷ refusal 36 (eqb from held) ∷ []) }
{
    let fewer = u64::from(held) < counted;
    if fewer && past == held {
        39
    } else if from == held {
        36
    } else {
        0
    }
}
