// The state before a record of any input: the records before it are passed, and no rule is asked again.
ghost use Rattle.std.specs.Prelude.{◌≡◌, true, ◌/◌, ◌≤◌, length};
ghost use Rattle.paper_entry.specs.Verdict.{length_good};
ghost use Rattle.entry_step.specs.Pass.{Walking};

use entry_step::step::Judge;
use number::form::NumberTables;
use record_names::identifier::Names;

pub(crate) fn state_at(names: &Names, entry: &[u8], n: usize) -> Judge
    requires value { length_good (length entry.now) ≡ true }
    requires n_in_bounds { n ≤ length entry.now / 81 }
    ensures { Walking result entry.now n }
{
    let numbers = NumberTables::new();
    let mut j = Judge::new();
    let mut i = 0;
    while i < n {
        let p = j.pass(names, &numbers, entry, i);
        j = p.next;
        i += 1;
    }
    j
}
