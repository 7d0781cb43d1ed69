// The roles of records, and the kinds that they are of.
ghost use Rattle.std.specs.Prelude.{◌≡◌, ◌+◌, ◌-◌, ◌<◌};
ghost use Rattle.paper_rules.specs.Roles.{is_system, opens_subentry, opens_section, is_heading, is_unit, is_value};

use record_names::identifier::{BIB, COMMON, DATA, NOSUBENT, OTHER, SUBENT, TRANS};

// The roles of the records inside sections; a system record has its identifier's number.
pub const TEXT: usize = OTHER + 1;

pub const COMMON_HEADING: usize = OTHER + 2;

pub const COMMON_UNIT: usize = OTHER + 3;

pub const COMMON_VALUE: usize = OTHER + 4;

pub const DATA_HEADING: usize = OTHER + 5;

pub const DATA_UNIT: usize = OTHER + 6;

pub const DATA_VALUE: usize = OTHER + 7;

pub const NOT_DUE: usize = OTHER + 8;

// The rows of a table: headings, units, and the lines.
pub const HEADINGS: u32 = 0;

pub const UNITS: u32 = 1;

pub const VALUES: u32 = 2;

// One of the fourteen system identifiers that stand in an entry.
pub fn is_system(role: usize) -> bool
    ensures { result ≡ is_system role }
{
    role < TRANS
}

// SUBENT or NOSUBENT.
pub fn opens_subentry(role: usize) -> bool
    ensures { result ≡ opens_subentry role }
{
    role == SUBENT || role == NOSUBENT
}

// BIB, COMMON or DATA.
pub fn opens_section(role: usize) -> bool
    ensures { result ≡ opens_section role }
{
    role == BIB || role == COMMON || role == DATA
}

pub fn is_heading(role: usize) -> bool
    ensures { result ≡ is_heading role }
{
    role == COMMON_HEADING || role == DATA_HEADING
}

pub fn is_unit(role: usize) -> bool
    ensures { result ≡ is_unit role }
{
    role == COMMON_UNIT || role == DATA_UNIT
}

pub fn is_value(role: usize) -> bool
    ensures { result ≡ is_value role }
{
    role == COMMON_VALUE || role == DATA_VALUE
}
