// The call.
ghost use Rattle.std.specs.Prelude.{◌≡◌, length};
ghost use Rattle.paper_index.specs.Making.{made, stored_index};

use entry::judge::judge;
use entry_verdict::answer::answer_for;
use index_store::refusal::refusal_for;
use index_walk::walk::store_rows;
use paper_index::types::Made;

// The index of an entry, stored in a slice that may be longer. The answer's number is 0, 31 or 38.
pub fn make_index(entry: &[u8], index: &mut [u32]) -> Made
    ensures value { result ≡ made entry.now (length index.old) }
    ensures index_after { index.new ≡ stored_index entry.now index.old }
{
    let v = judge(entry);
    let totals = v.totals;
    let rows = totals.subentries;
    let numbers = index.len();
    let number = refusal_for(v.refusal, rows, numbers);
    let answer = answer_for(v, number);
    if number != 0 {
        return Made { answer, rows };
    }
    store_rows(entry, index);
    Made { answer, rows }
}
