//! Distances in space.

ghost use Rattle.std.specs.Prelude.{◌≡◌, ◌≤◌, ◌≤ℤ◌, pos};
ghost use Rattle.whole_numbers.specs.Numbers.{IsBelow};
ghost use Rattle.flight_model.specs.Samples.{square, is_short as word_short};

fn squared(z: i64) -> i64
    requires { IsBelow 1040000000 z }
    ensures value { result ≡ square z }
    ensures low { pos 0 ≤ℤ result }
    ensures high { result ≤ℤ pos 1081600000000000000 }
{
    z * z
}

/// Whether the straight line that goes this far on each axis is at most this long.
pub fn is_short(most: u32, x: i64, y: i64, z: i64) -> bool
    requires most { most ≤ 100000000 }
    requires x { IsBelow 1040000000 x }
    requires y { IsBelow 1040000000 y }
    requires z { IsBelow 1040000000 z }
    ensures { result ≡ word_short most x y z }
{
    squared(x) + squared(y) + squared(z) <= squared(most as i64)
}
