//! The value of a curve from its weights, rounded down.

ghost use Rattle.std.specs.Prelude.{◌≡◌, ℕ, ◌+◌, ◌*◌, ◌/◌, ◌^◌, ◌<◌, ◌≤◌, slice_index, ℤ, pos, ◌+ℤ◌, ◌-ℤ◌};
ghost use Rattle.whole_numbers.specs.Bernstein.{at};
ghost use Rattle.whole_numbers.specs.Numbers.{IsBelow};
ghost use Rattle.integer_player.specs.Weights.{dot_below, shift};

use crate::floor::floor_of_multiple;
use crate::weights::dot;

// What is added to a control value, so that it is not negative.
const SHIFT: i64 = 32768;

fn shifted_one(v: i16) -> u64
    ensures value { pos result ≡ v +ℤ pos shift }
    ensures small { result ≤ 65535 }
{
    (v as i64 + SHIFT) as u64
}

pub(crate) fn shifted<const N: usize>(b: &[i16; N]) -> [u64; N]
    ensures value { (k : ℕ) → k < N → pos (slice_index result k) ≡ at b.now k +ℤ pos shift }
    ensures small { (k : ℕ) → k < N → slice_index result k ≤ 65535 }
{
    let mut row = [0; N];
    for k in 0..N {
        row[k] = shifted_one(b[k]);
    }
    row
}

pub(crate) fn centred(floor: u64, scale: u64) -> i64
    requires most { floor ≤ 65535000 }
    requires few { scale ≤ 1000 }
    ensures value { result ≡ pos floor -ℤ pos (shift * scale) }
    ensures small { IsBelow (10 ^ 9) result }
{
    floor as i64 - SHIFT * scale as i64
}

// `scale` parts of a curve's value, rounded down, from its shifted control values. `whole` is what the
// weights sum to.
pub(crate) fn curve<const N: usize>(
    weights: &[u128; N],
    points: &[u64; N],
    whole: u128,
    scale: u64,
) -> i64
    requires some { 1 ≤ whole }
    requires small { whole < 2 ^ 112 }
    requires bounded { dot_below N weights.now points.now ≤ 65535 * whole }
    requires few { scale ≤ 1000 }
    ensures value { result ≡ pos (scale * dot_below N weights.now points.now / whole) -ℤ pos (shift * scale) }
    ensures small { IsBelow (10 ^ 9) result }
{
    let value = dot(weights, points);
    centred(floor_of_multiple(value, whole, scale), scale)
}
