// The difference of two sizes, as a signed number.
ghost use Rattle.std.specs.Prelude.{◌≡◌, ◌<◌, ◌^◌, pos, ◌-ℤ◌};

pub(crate) fn difference(up: u32, down: u32) -> i32
    requires { (up < 2 ^ 31) × (down < 2 ^ 31) }
    ensures { result ≡ pos up -ℤ pos down }
{
    (up as i32) - (down as i32)
}
