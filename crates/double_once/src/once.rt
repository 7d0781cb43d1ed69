// The one operation on two exact doubles, and the sign.
ghost use Rattle.std.specs.Prelude.{◌≡◌, ℕ, ◌≤◌};
ghost use Rattle.paper_double.specs.Double.{times, divided, signed_by};
ghost use Rattle.paper_double.specs.Table.{TensLent};

// A whole number times an exact power of ten, rounded once.
pub fn times(t: &[f64; 23], c: u64, k: usize) -> f64
    requires tens_lent { TensLent t.now }
    requires c_bound { c ≤ 9999999999 }
    requires k_bound { k ≤ 22 }
    ensures { result ≡ times c k }
{
    let x = c as f64;
    x * t[k]
}

// A whole number divided by an exact power of ten, rounded once.
pub fn divided(t: &[f64; 23], c: u64, k: usize) -> f64
    requires tens_lent { TensLent t.now }
    requires c_bound { c ≤ 9999999999 }
    requires k_bound { k ≤ 22 }
    ensures { result ≡ divided c k }
{
    let x = c as f64;
    x / t[k]
}

pub fn signed(negative: bool, x: f64) -> f64
    ensures { result ≡ signed_by negative x }
{
    if negative { -x } else { x }
}
