// The second way over an accepted entry: the copy of each record, stored in its place.
ghost use Rattle.std.specs.Prelude.{◌≡◌};
ghost use Rattle.paper_copy.specs.Call.{copied_into};
ghost use Rattle.paper_copy.specs.Storing.{Room};

use copy_records::records::copy_record;
use entry_step::step::Judge;
use number::form::NumberTables;
use record_names::identifier::Names;
use rules_roles::ranging::part;

// Goes over the records of an accepted entry once more and stores each in its place.
pub fn copy_records(entry: &[u8], out: &mut [u8])
    requires { Room entry.now out.old }
    ensures { out.new ≡ copied_into entry.now out.old }
{
    let n = entry.len() / 81;
    let names = Names::new();
    let numbers = NumberTables::new();
    let mut j = Judge::new();
    let mut i = 0;
    while i < n {
        let from = i * 81;
        let past = from + 81;
        let t = j.track;
        let ranges = j.ranges;
        let headings = ranges.table;
        let passed = j.pass(&names, &numbers, entry, i);
        let role = passed.role;
        let next = passed.next;
        let table = part(entry, headings);
        copy_record(out, from, t, table, role, &entry[from..past]);
        j = next;
        i += 1;
    }
}
