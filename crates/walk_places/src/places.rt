// Where a walk over the values of a table stands, by its numbers alone: at a place of the table or not, and the next place.
ghost use Rattle.std.specs.Prelude.{◌≡◌, true};
ghost use Rattle.paper_walk.specs.Walk.{done_walk, walk_from, stands, onward};

use entry_verdict::answer::answer_of;
use paper_entry::types::Answer;
use paper_questions::types::Shape;
use paper_record::types::{LineNo, RecordNo};
use paper_walk::types::Walk;
use rules_limits::limits::{MOST_COLUMNS, MOST_LINES};
use rules_state::state::MOST_RECORDS;

// A walk that is done: there is no line.
pub fn done_walk(answer: Answer) -> Walk
    ensures { result ≡ done_walk answer }
{
    Walk {
        answer,
        section: RecordNo(0),
        columns: 0,
        lines: 0,
        line: LineNo(1),
        column: 1,
    }
}

// The walk before the first place of a table.
pub fn walk_from(at: RecordNo, shape: Shape) -> Walk
    ensures { result ≡ walk_from at shape }
{
    Walk {
        answer: answer_of(0),
        section: at,
        columns: shape.columns,
        lines: shape.lines,
        line: LineNo(1),
        column: 1,
    }
}

// Whether a walk stands at a place of its table.
#[tactic(auto, unfolding(paper_walk::specs::Walk::stands))]
pub fn stands(walk: Walk) -> bool
    ensures { result ≡ stands walk }
{
    walk.section.0 <= MOST_RECORDS
        && u64::from(walk.columns) <= MOST_COLUMNS
        && u64::from(walk.lines) <= MOST_LINES
        && 1 <= walk.line.0
        && walk.line.0 <= walk.lines
        && 1 <= walk.column
        && walk.column <= walk.columns
}

// The walk at the next place; behind the last it stands in a line that the table has not.
pub fn onward(walk: Walk) -> Walk
    requires { stands walk ≡ true }
    ensures { result ≡ onward walk }
{
    let Walk {
        columns,
        line,
        column,
        ..
    } = walk;
    if column < columns {
        return Walk {
            column: column + 1,
            ..walk
        };
    }
    let below = line.0 + 1;
    Walk {
        line: LineNo(below),
        column: 1,
        ..walk
    }
}
