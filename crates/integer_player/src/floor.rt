//! The floor of a multiple of a quotient, by quotient and remainder first, so that nothing needs more
//! than 128 bits.

ghost use Rattle.std.specs.Prelude.{◌≡◌, ◌^◌, ◌*◌, ◌/◌, ◌<◌, ◌≤◌};

pub(crate) fn floor_of_multiple(v: u128, m: u128, scale: u64) -> u64
    requires some { 1 ≤ m }
    requires small { m < 2 ^ 112 }
    requires bounded { v ≤ 65535 * m }
    requires few { scale ≤ 1000 }
    ensures value { result ≡ scale * v / m }
    ensures most { result ≤ 65535000 }
{
    let scale = scale as u128;
    (scale * (v / m) + scale * (v % m) / m) as u64
}
