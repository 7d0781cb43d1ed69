// The walker holds the entry and its place in it. Each function takes it apart and leaves the work to a function over plain
// parameters.
ghost use Rattle.std.specs.Prelude.{◌≡◌};
ghost use Rattle.paper_walk.specs.Walk.{start_of, given_said};
ghost use Rattle.walker.specs.Walker.{moved_to, next_of};

use paper_walk::types::{Given, Step, Walk};
use walk::walk::one_on;
use walk_start::start::start;

#[derive(Clone, Copy)]
pub struct Walker<'a> {
    pub entry: &'a [u8],
    pub walk: Walk,
}

impl<'a> Walker<'a> {
    // The walker over the values of COMMON (section 1) or DATA (section 2) of a subentry; `walk.answer` says 0, or 31 to 33, and
    // then it is done.
    pub fn new(entry: &'a [u8], number: u32, section: u32) -> Walker<'a>
        ensures { (result.entry ≡ entry.entry) × (result.walk ≡ start_of entry.now number section) }
    {
        let walk = start(entry, number, section);
        Walker { entry, walk }
    }

    // The next value with its line and column, nothing when the walk is done.
    pub fn next(&mut self) -> Option<Given>
        ensures { (self.new ≡ moved_to self.old (next_of self.old).walk)
            × ((result ≡ (next_of self.old).given) × (given_said result ≡ given_said (next_of self.old).given)) }
    {
        let Step { walk, given } = one_on(self.entry, self.walk);
        self.walk = walk;
        given
    }
}
