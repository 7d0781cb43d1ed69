// Which fields of a record the copy makes canonical.
ghost use Rattle.std.specs.Prelude.{◌≡◌, ◌<◌};
ghost use Rattle.rules_flags.specs.Lent.{WholeRecords};
ghost use Rattle.paper_copy.specs.CopyField.{value_field, number_in};

use paper_rules::types::Track;
use rules_flags::flags::is_flag_column;
use rules_roles::roles::{COMMON_VALUE, DATA_VALUE};
use rules_state::state::used;

// Whether the field k of a record with this role is a value field.
fn is_value_field(t: Track, role: usize, k: usize) -> bool
    ensures { result ≡ value_field t role k }
{
    (role == COMMON_VALUE || role == DATA_VALUE) && k < used(t)
}

// Whether it is a number field: none under FLAG or DECAY-FLAG is one.
pub fn is_number_field(t: Track, table: &[u8], role: usize, k: usize) -> bool
    requires { WholeRecords table.now × (k < 6) }
    ensures { result ≡ number_in table.now t role k }
{
    is_value_field(t, role, k) && !is_flag_column(t, table, k)
}
