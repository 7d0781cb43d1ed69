// The bytes of a canonical field, stored from the right, each once.
ghost use Rattle.std.specs.Prelude.{◌≡◌, length};
ghost use Rattle.paper_canonical.specs.Storing.{ReadyLayout, field_text};
ghost use Rattle.canonical_parts.specs.Once.{pieces, stored};

use canonical_parts::parts::{
    layout_columns, put_blanks, put_body, put_exponent, put_sign, sign_columns, with_zeros,
};
use paper_canonical::types::Layout;

// A layout's field, right-adjusted in the whole of a buffer.
pub fn put_field(out: &mut [u8], negative: bool, c: u64, p: Layout)
    requires { ReadyLayout negative c p (length out.old) }
    ensures out_after { out.new ≡ field_text (length out.old) negative c p }
    ensures out_after_2 { out.new ≡ stored out.old (pieces (length out.old) negative c p) }
{
    let lead = out.len() - layout_columns(negative, p);
    let at = lead + sign_columns(negative);
    let Layout {
        whole,
        part,
        zeros,
        exponent,
    } = p;
    let v = with_zeros(c, zeros);
    put_exponent(out, at + (whole + (1 + part)), exponent);
    put_body(out, at, whole, part, v);
    put_sign(out, lead, negative);
    put_blanks(out, lead);
}
