// The rules for every record: refusals 2 to 6. Each gives the leftmost column at fault, 0 where there is none.
ghost use Rattle.std.specs.Prelude.{◌≡◌, ℕ, ◌+◌, ◌-◌, ◌*◌, ◌≤◌, ◌<◌, length, get_or};
ghost use Rattle.paper_record.specs.Columns.{Whole};
ghost use Rattle.paper_rules.specs.Ranging.{Bounded};
ghost use Rattle.paper_faults.specs.Fault.{leftmost};
ghost use Rattle.paper_rules.specs.Every.{rule2, rule3, rule4, expected_identification, rule5, expected_sequence};
ghost use Rattle.paper_rules.specs.Every.{rule6};

use classes::class::Classes;
use columns::columns::has_line_feed;
use paper_rules::types::Track;
use record_expected::expected::{
    entry_accession, five_digits, identification, identification_for, same_five,
    same_identification, sequence, subent_identification,
};
use record_names::identifier::{ENDENTRY, ENDSUBENT, ENTRY};
use rules_roles::roles::{NOT_DUE, opens_subentry};

pub fn rule2(rec: &[u8]) -> u8
    requires { Whole rec.now }
    ensures { result ≡ leftmost (rule2 rec.now) }
{
    if has_line_feed(rec) {
        return 0;
    }
    81
}

pub fn rule3(classes: &Classes, rec: &[u8]) -> u8
    requires { Whole rec.now }
    ensures { result ≡ leftmost (rule3 rec.now) }
{
    let n = classes.permitted_to(rec);
    if n < 80 {
        let column = (n + 1) as u8;
        return column;
    }
    0
}

pub fn rule4(role: usize) -> u8
    ensures { result ≡ leftmost (rule4 role) }
{
    if role == NOT_DUE {
        return 1;
    }
    0
}

// The identification that a record with the role and these fields must bear.
pub fn expected_identification(track: Track, role: usize, fs: [[u8; 11]; 6]) -> [u8; 8]
    ensures { result ≡ expected_identification track role fs }
{
    let f = fs[1];
    let accession = track.accession;
    if role == ENTRY {
        let own = entry_accession(f);
        return identification_for(own, 0);
    }
    if opens_subentry(role) {
        return subent_identification(f);
    }
    if role == ENDENTRY {
        return identification_for(accession, 999);
    }
    let s = track.subentry;
    identification_for(accession, s.number)
}

pub fn rule5(track: Track, role: usize, fs: [[u8; 11]; 6], rec: &[u8]) -> u8
    requires { Whole rec.now }
    ensures { result ≡ leftmost (rule5 track role fs rec.now) }
{
    let own = identification(rec);
    let due = expected_identification(track, role, fs);
    if same_identification(own, due) {
        return 0;
    }
    67
}

// The sequence number that a record with the role must bear.
pub fn expected_sequence(track: Track, role: usize) -> u32
    requires { Bounded track }
    ensures { result ≡ expected_sequence track role }
{
    if role == ENTRY {
        return 1;
    }
    if opens_subentry(role) {
        return 1;
    }
    if role == ENDSUBENT {
        return 99999;
    }
    if role == ENDENTRY {
        return 99999;
    }
    let s = track.subentry;
    s.records + 2
}

pub fn rule6(track: Track, role: usize, rec: &[u8]) -> u8
    requires whole { Whole rec.now }
    requires bounded { Bounded track }
    ensures { result ≡ leftmost (rule6 track role rec.now) }
{
    let own = sequence(rec);
    let due = five_digits(expected_sequence(track, role));
    if same_five(own, due) {
        return 0;
    }
    75
}
