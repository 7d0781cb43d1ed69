// Where the digits of a canonical field stand, by arithmetic on the count of its digits and the power.
ghost use Rattle.std.specs.Prelude.{◌≡◌, ◌+◌, ◌-◌, ◌*◌, ◌<◌, ◌≤◌, ◌^◌, ℤ, pos, ◌+ℤ◌, unsigned_abs};
ghost use Rattle.paper_number.specs.Value.{value_of};
ghost use Rattle.paper_canonical.specs.Closed.{plain_layout, layout_up, layout_down, layout_of};
ghost use Rattle.paper_number.specs.Count.{«count» as count_of};
ghost use Rattle.paper_canonical.specs.Storing.{prepared_of};

use number::value::without_zeros;
use paper_canonical::types::{Exponent, Layout, Prepared};

// How many digits a number has, and the least number that has as many.
#[derive(Clone, Copy)]
pub struct Measure {
    pub digits: usize,
    pub least: u64,
}

fn measured(v: u64) -> Measure
    ensures { (result.digits ≡ count_of v) × (result.least ≡ 10 ^ (count_of v - 1)) }
{
    let mut least: u64 = 1;
    for i in 0usize..19 {
        if v / 10 < least {
            return Measure {
                digits: i + 1,
                least,
            };
        }
        least *= 10;
    }
    Measure { digits: 20, least }
}

// A layout without exponent.
fn plain_layout(whole: usize, part: usize, zeros: usize) -> Layout
    ensures { result ≡ plain_layout whole part zeros }
{
    Layout {
        whole,
        part,
        zeros,
        exponent: None,
    }
}

// d digits and a power p of zero or more.
fn layout_up(d: usize, p: u64) -> Layout
    requires { d ≤ 20 }
    ensures { result ≡ layout_up d p }
{
    if p <= 2 {
        let zeros = p as usize;
        return plain_layout(d + zeros, 0, zeros);
    }
    let Measure { digits, least } = measured(p);
    if p == least {
        return Layout {
            whole: d + 1,
            part: 0,
            zeros: 1,
            exponent: Some(Exponent {
                below: false,
                long: digits - 1,
                size: p - 1,
            }),
        };
    }
    Layout {
        whole: d,
        part: 0,
        zeros: 0,
        exponent: Some(Exponent {
            below: false,
            long: digits,
            size: p,
        }),
    }
}

// d digits and a power -t that is written as an exponent.
fn layout_raised(d: usize, t: u64) -> Layout
    requires { (d ≤ 20) × ((t < 2 ^ 33) × (d + 2 < t)) }
    ensures { result ≡ layout_down d t }
{
    let Measure { digits, least } = measured(t - (d as u64));
    let most = least * 10 - 1;
    if t <= most {
        return Layout {
            whole: d,
            part: 0,
            zeros: 0,
            exponent: Some(Exponent {
                below: true,
                long: digits,
                size: t,
            }),
        };
    }
    let part = (t - most) as usize;
    Layout {
        whole: d - part,
        part,
        zeros: 0,
        exponent: Some(Exponent {
            below: true,
            long: digits,
            size: most,
        }),
    }
}

// d digits and a power -t.
fn layout_down(d: usize, t: u64) -> Layout
    requires { (d ≤ 20) × (t < 2 ^ 33) }
    ensures { result ≡ layout_down d t }
{
    let e = d as u64;
    if t <= e {
        let part = t as usize;
        return plain_layout(d - part, part, 0);
    }
    if t <= e + 2 {
        return plain_layout(0, t as usize, 0);
    }
    layout_raised(d, t)
}

// d digits and any power.
fn layout_of(d: usize, power: i64) -> Layout
    requires { (d ≤ 20) × (unsigned_abs power < 2 ^ 33) }
    ensures { result ≡ layout_of d power }
{
    let size = power.unsigned_abs();
    if power < 0 {
        layout_down(d, size)
    } else {
        layout_up(d, size)
    }
}

pub fn prepare(negative: bool, coefficient: u64, power: i32) -> Prepared
    ensures { result ≡ prepared_of (value_of negative coefficient power) }
{
    if coefficient == 0 {
        return Prepared {
            negative: false,
            coefficient: 0,
            layout: plain_layout(1, 0, 0),
        };
    }
    let t = without_zeros(coefficient);
    let m = measured(t.number);
    let zeros = t.zeros as i64;
    let sum = i64::from(power) + zeros;
    let layout = layout_of(m.digits, sum);
    Prepared {
        negative,
        coefficient: t.number,
        layout,
    }
}
