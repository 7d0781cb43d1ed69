// The classes of characters, the names of system identifiers and the forms of numbers.
ghost use Rattle.std.specs.Prelude.{◌≡◌};
ghost use Rattle.paper_number.specs.Form.{kind_table, next_table};
ghost use Rattle.paper_record.specs.Class.{class_table};
ghost use Rattle.paper_record.specs.Identifier.{name_table};

use classes::class::Classes;
use number::form::NumberTables;
use record_names::identifier::Names;

// What each table holds is a ghost field of its type.
#[derive(Clone, Copy)]
pub struct Tables {
    pub classes: Classes,
    pub names: Names,
    pub numbers: NumberTables,
}

impl Tables {
    pub fn new() -> Self
        ensures classes { result.classes.table.now ≡ class_table }
        ensures names { result.names.columns.now ≡ name_table }
        ensures kinds { result.numbers.kinds.now ≡ kind_table }
        ensures nexts { result.numbers.nexts.now ≡ next_table }
    {
        Tables {
            classes: Classes::new(),
            names: Names::new(),
            numbers: NumberTables::new(),
        }
    }
}
