// The exact powers of ten, and where a power stands among them.
ghost use Rattle.std.specs.Prelude.{◌≡◌};
ghost use Rattle.paper_double.specs.Table.{tens, rung};

// The powers of ten that a double holds exactly.
const TENS: [f64; 23] = [
    1.0,
    10.0,
    100.0,
    1000.0,
    10000.0,
    100000.0,
    1000000.0,
    10000000.0,
    100000000.0,
    1000000000.0,
    10000000000.0,
    100000000000.0,
    1000000000000.0,
    10000000000000.0,
    100000000000000.0,
    1000000000000000.0,
    10000000000000000.0,
    100000000000000000.0,
    1000000000000000000.0,
    10000000000000000000.0,
    100000000000000000000.0,
    1000000000000000000000.0,
    10000000000000000000000.0,
];

// The table. It is written out at each use, so it is taken once and lent.
pub fn tens() -> [f64; 23]
    ensures { result ≡ tens }
{
    TENS
}

// A power outside -22 to 22.
const OUTSIDE: usize = 45;

// A power counted from -22 on.
pub fn rung(power: i32) -> usize
    ensures { result ≡ rung power }
{
    let s = (power as i64) + 22;
    if s < 0 {
        return OUTSIDE;
    }
    if 44 < s {
        return OUTSIDE;
    }
    s as usize
}
