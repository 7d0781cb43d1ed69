// Where the writer of a merge stands.

// The next record of the held entry and of the revision, the bytes written and the subentries counted.
#[derive(Clone, Copy)]
pub struct Cursors {
    pub held: usize,
    pub revision: usize,
    pub at: usize,
    pub count: usize,
}
