// Writing a decimal as its canonical field.
ghost use Rattle.std.specs.Prelude.{◌≡◌, ◌≤◌, length};
ghost use Rattle.paper_number.specs.Value.{value_of};
ghost use Rattle.paper_canonical.specs.Writing.{answered, stored_field, written, bytes, error_number, refusal_number, writing_refusal};

use canonical_layout::layout::prepare;
use canonical_parts::parts::layout_columns;
use canonical_store::store::put_field;
use paper_canonical::types::{Prepared, WriteError};

// Document 01's number for a refusal.
pub fn number_of(e: WriteError) -> u8
    ensures { result ≡ error_number e }
{
    match e {
        WriteError::NotEleven => 40,
        WriteError::NoField => 41,
    }
}

// The canonical field of a value in a buffer of at most 19 columns.
pub fn write_columns(
    negative: bool,
    coefficient: u64,
    power: i32,
    out: &mut [u8],
) -> Result<(), WriteError>
    requires { length out.old ≤ 19 }
    ensures value { result ≡ answered out.old (value_of negative coefficient power) }
    ensures out_after { out.new ≡ stored_field out.old (value_of negative coefficient power) }
{
    let Prepared {
        negative,
        coefficient,
        layout,
    } = prepare(negative, coefficient, power);
    if out.len() < layout_columns(negative, layout) {
        return Err(WriteError::NoField);
    }
    put_field(out, negative, coefficient, layout);
    Ok(())
}

// The canonical field of a value in eleven columns.
pub fn write_number(
    negative: bool,
    coefficient: u64,
    power: i32,
    out: &mut [u8],
) -> Result<(), WriteError>
    ensures value { result ≡ written out.old (value_of negative coefficient power) }
    ensures out_after { out.new ≡ bytes out.old (value_of negative coefficient power) }
    ensures result_value { refusal_number result ≡ writing_refusal out.old (value_of negative coefficient power) }
{
    if out.len() != 11 {
        return Err(WriteError::NotEleven);
    }
    write_columns(negative, coefficient, power, out)
}
