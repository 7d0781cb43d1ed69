// The types that the definitions name.

// Before TRANS, behind it, behind ENDTRANS.
#[derive(Clone, Copy)]
pub enum Stage {
    Before,
    Within,
    Behind,
}
